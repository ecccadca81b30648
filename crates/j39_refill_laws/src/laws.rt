//! Laws of schedules in which units refill their buffers.
ghost use Rattle.std.specs.Prelude.{◌≡◌, ℕ, Bool, true, false, ◌+◌, ◌<◌, ◌≤◌};
ghost use Rattle.j39_timing.specs.AnyOrder.{AreBegunWithin, Controllers, IsLegalInAnyOrder, later_by};
ghost use Rattle.j39_timing.specs.Errors.{Damaged, with_errors};
ghost use Rattle.j39_timing.specs.FrameStreams.{AreOfStreams, Origins};
ghost use Rattle.j39_timing.specs.Messages.{AreSentWithin};
ghost use Rattle.j39_timing.specs.TimedFrames.{Schedule};
ghost use Rattle.j39_timing.specs.Traffic.{IsStreamInTime, Traffic};
ghost use Rattle.j39_timing.specs.declared.stream.Stream.{Stream as TheStream};
ghost use Rattle.j39_refill_laws.specs.Refill.{HaveRefillWaits, IsLegalWithRefill, RefillAlone, after_refill};
ghost use Rattle.j39_refill_laws.specs.RefillErrors.{IsLegalWithRefillAndErrors, error_units};
ghost use Rattle.j39_refill_laws.specs.RefillTraffic.{IsTrafficWithRefill, RefillDemandFits};

/// Where units take part in no arbitration for a while behind each frame that they sent, order is nothing: whatever
/// begins while a frame waits counts. In every such schedule a planned frame begins within a wait that has room for the
/// frame that has begun and the longest refill, for as much of each frame that isn't planned, and for all streams, each
/// of their frames with the refill of its unit, but for the frame itself (`begun`). So it has been sent within its delay
/// from its release (`in_time`), and within this wait and its own length (`sent`), however often it comes.
pub fn frames_with_refill_are_in_time()
    ensures begun { (s : Schedule) (controllers : Controllers) (refill : ℕ → ℕ) (traffic : Traffic) (refill_of : ℕ
        → ℕ) (unplanned longest most : ℕ) (planned : ℕ → Bool) (of : Origins) (i wait : ℕ)
        → IsLegalWithRefill s controllers refill
        → IsTrafficWithRefill s controllers refill traffic refill_of unplanned longest most planned of i
        → ((j : ℕ) → j < traffic.count → 0 < (traffic.stream j).period)
        → (traffic.stream i).bits ≤ longest → refill_of i ≤ most
        → RefillDemandFits traffic refill_of unplanned longest most i wait → AreBegunWithin s planned of i wait }
    ensures in_time { (s : Schedule) (controllers : Controllers) (refill : ℕ → ℕ) (traffic : Traffic) (refill_of : ℕ
        → ℕ) (unplanned longest most : ℕ) (planned : ℕ → Bool) (of : Origins) (i wait : ℕ)
        → IsLegalWithRefill s controllers refill
        → IsTrafficWithRefill s controllers refill traffic refill_of unplanned longest most planned of i
        → ((j : ℕ) → j < traffic.count → 0 < (traffic.stream j).period)
        → (traffic.stream i).bits ≤ longest → refill_of i ≤ most
        → RefillDemandFits traffic refill_of unplanned longest most i wait
        → IsStreamInTime s planned of i (traffic.stream i) wait }
    ensures sent { (s : Schedule) (controllers : Controllers) (refill : ℕ → ℕ) (traffic : Traffic) (refill_of : ℕ
        → ℕ) (unplanned longest most : ℕ) (planned : ℕ → Bool) (of : Origins) (i wait : ℕ)
        → IsLegalWithRefill s controllers refill
        → IsTrafficWithRefill s controllers refill traffic refill_of unplanned longest most planned of i
        → ((j : ℕ) → j < traffic.count → 0 < (traffic.stream j).period)
        → (traffic.stream i).bits ≤ longest → refill_of i ≤ most
        → RefillDemandFits traffic refill_of unplanned longest most i wait
        → AreSentWithin s planned of i (traffic.stream i) wait }
{}

/// Beside units that refill a buffer what is known of schedules without refills holds: where each frame of such a unit
/// counts as queued where it begins, or as many bits later as it may wait, the schedule is legal in any order (`legal`),
/// and planned frames keep to streams that are so much later (`streams`).
pub fn frames_beside_refills_are_legal()
    ensures legal { (s : Schedule) (controllers : Controllers) (refill : ℕ → ℕ) (refills : ℕ → Bool) (waits : ℕ → ℕ)
        → IsLegalWithRefill s controllers refill → RefillAlone refill refills
        → HaveRefillWaits s controllers refills waits
        → IsLegalInAnyOrder (after_refill s controllers refills waits) controllers }
    ensures streams { (s : Schedule) (controllers : Controllers) (refill : ℕ → ℕ) (refills : ℕ → Bool) (waits : ℕ
        → ℕ) (planned : ℕ → Bool) (count : ℕ) (stream : ℕ → TheStream) (of : Origins)
        → IsLegalWithRefill s controllers refill → AreOfStreams s (λ p. planned p ≡ true) count stream of
        → AreOfStreams (after_refill s controllers refills (λ p. waits (of.source p))) (λ p. planned p ≡ true) count
        (λ j. later_by (waits j) (stream j)) of }
{}

/// A bus with damaged frames on which units refill a buffer, behind the error frames of their attempts too, is one of
/// such a schedule, in which attempts and error frames are frames: so what is known of frames with refills holds of it
/// (`legal`). Each frame is of the unit that it was of (`units`).
pub fn refills_beside_damage_are_legal()
    ensures legal { (s : Schedule) (controllers : Controllers) (damaged : Damaged) (own : ℕ) (refill : ℕ → ℕ)
        → IsLegalWithRefillAndErrors s controllers damaged refill
        → IsLegalWithRefill (with_errors s damaged) (error_units s controllers damaged own) refill }
    ensures units { (s : Schedule) (controllers : Controllers) (damaged : Damaged) (own p : ℕ) → p < s.count
        → (error_units s controllers damaged own).unit p ≡ controllers.unit p }
{}

/// The premises can be met, and there is a bus on which the bound is reached: of one unit that refills its buffer, two
/// of whose frames wait behind one that isn't planned, the later one begins exactly so late (`frames`); so it does where
/// the other one is tried in vain before (`damaged`).
pub fn a_bound_with_refill_is_reached()
    ensures frames { (s : Schedule) × (controllers : Controllers) × (refill : ℕ → ℕ) × (traffic : Traffic) × (refill_of : ℕ
        → ℕ) × (planned : ℕ → Bool) × (of : Origins) × IsLegalWithRefill s controllers refill
        × IsTrafficWithRefill s controllers refill traffic refill_of 0 160 1000 planned of 0
        × ((j : ℕ) → j < traffic.count → 0 < (traffic.stream j).period)
        × ((traffic.stream 0).bits ≤ 160) × (refill_of 0 ≤ 1000)
        × RefillDemandFits traffic refill_of 0 160 1000 0 2320
        × (2 < s.count) × (planned 2 ≡ true) × (of.source 2 ≡ 0) × (s.queued 2 + 2320 < s.now)
        × (s.start 2 ≡ s.queued 2 + 2320) }
    ensures damaged { (s : Schedule) × (controllers : Controllers) × (damaged : Damaged) × (own : ℕ) × (refill : ℕ
        → ℕ) × (traffic : Traffic) × (refill_of : ℕ → ℕ) × (planned : ℕ → Bool) × (of : Origins)
        × IsLegalWithRefillAndErrors s controllers damaged refill
        × IsTrafficWithRefill (with_errors s damaged) (error_units s controllers damaged own) refill traffic refill_of 0 160 1000
        planned of 0
        × ((j : ℕ) → j < traffic.count → 0 < (traffic.stream j).period)
        × ((traffic.stream 0).bits ≤ 160) × (refill_of 0 ≤ 1000)
        × RefillDemandFits traffic refill_of 0 160 1000 0 3511 × (0 < damaged.count)
        × (2 < s.count) × (planned 2 ≡ true) × (of.source 2 ≡ 0) × (s.queued 2 + 3511 < s.now)
        × (s.start 2 ≡ s.queued 2 + 3511) }
{}
