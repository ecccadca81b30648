//! Laws of schedules.
ghost use Rattle.std.specs.Prelude.{◌≡◌, ℕ, Bool, true, false, ◌+◌, ◌*◌, ◌<◌, ◌≤◌, List, All};
ghost use Rattle.j39_timing.specs.TimedFrames.{Schedule, IsLegal};
ghost use Rattle.j39_timing.specs.FrameStreams.{Origins};
ghost use Rattle.j39_timing.specs.Errors.{Damaged, IsLegalInAnyOrderWithErrors, IsLegalWithErrors, damage_ordered};
ghost use Rattle.j39_timing.specs.Errors.{with_errors};
ghost use Rattle.j39_timing.specs.Messages.{LongMessage, AreSentInTurn, AreSentWithin, IsBroadcast, IsOf};
ghost use Rattle.j39_timing.specs.Messages.{all_whole_at};
ghost use Rattle.j39_timing.specs.Messages.{time_of_messages};
ghost use Rattle.j39_timing.specs.FreshFrames.{ComeOneByOne, IsFresh, IsNewest, IsNewestFresh, KeepsComing};
ghost use Rattle.j39_timing.specs.Prefixes.{IsPlannedUntil, AreBegunUntil, HaveWaitsUntil, IsQueueGroupUntil};
ghost use Rattle.j39_timing.specs.AnyOrder.{AreBegunWithin, Controllers, HaveWaits, IsLegalInAnyOrder, IsFromOrdered};
ghost use Rattle.j39_timing.specs.AnyOrder.{IsOrderedStream, IsUnordered, after_buffering, buffered_traffic};
ghost use Rattle.j39_timing.specs.QueueGroups.{QueueGroup, QueueGroupDemandFits, IsTrafficOfQueueGroup};
ghost use Rattle.j39_timing.specs.AnsweredRequests.{RequestsAnswered, AreAnswers, AskNoOftenerThan, Requesters};
ghost use Rattle.j39_timing.specs.WantedMessages.{AreAnnouncements, AreFramesOfMessages, AreReleasedApart};
ghost use Rattle.j39_timing.specs.WantedMessages.{AreWantedInTurn, HasLongest, HavePeriods, UnitMessages, WantNoMore};
ghost use Rattle.j39_timing.specs.WantedMessages.{want_at};
ghost use Rattle.j39_timing.specs.Waits.{Demand, frames_of_want, frames_wanted};
ghost use Rattle.j39_timing.specs.declared.wants.Want.{Want as TheWant};
ghost use Rattle.j39_timing.specs.declared.stream.Stream.{Stream as TheStream};
ghost use Rattle.j39_timing.specs.Rounds.{AreSenders, Senders, all_planned, in_rounds, nothing_else, of_rounds};
ghost use Rattle.j39_timing.specs.Rounds.{traffic_of_rounds};
ghost use Rattle.j39_timing.specs.Traffic.{Traffic, Others, IsPlannedTraffic, IsSingle, DemandFits, IsStreamInTime};
ghost use Rattle.j39_timing.specs.Traffic.{AreQueuedBehind, AreSteady, OwnDemandFits, delay_of, queuings_in};
ghost use Rattle.j39_timing.specs.Traffic.{releases_in};

/// Of planned frames among all that are on a bus, whose identifiers may change from one to the next: in every legal
/// schedule of such traffic, where a wait has room for the frame that has begun, for others, and for all streams of
/// which a frame may go before, each frame of a stream of single frames begins within it. Two of its frames can be
/// queued as much nearer to one another than a period as they may be late, and the wait has to fit between them. A
/// frame may go before too that has the same identifier: one of a twin, of the same unit.
pub fn planned_frames_are_in_time()
    ensures in_time { (s : Schedule) (traffic : Traffic) (others : Others) (longest : ℕ) (planned : ℕ
        → Bool) (of : Origins) → IsLegal s
        → (i wait : ℕ) → IsPlannedTraffic s traffic others longest planned of i
        → ((j : ℕ) → j < traffic.count → 0 < (traffic.stream j).period) → DemandFits traffic others longest i wait
        → IsSingle (traffic.stream i)
        → delay_of (traffic.stream i) wait ≤ (traffic.stream i).period
        → IsStreamInTime s planned of i (traffic.stream i) wait }
{}

/// Who needs a stream's newest value has one that is never older than the longest pause between the releases of its
/// frames and their delay together, from the first one's delay on.
pub fn ages_are_bounded()
    ensures fresh { (s : Schedule) (planned : ℕ
        → Bool) (of : Origins) (i : ℕ) (stream : TheStream) (wait pause from to : ℕ)
        → IsStreamInTime s planned of i stream wait
        → KeepsComing s planned of i pause from to → to + (stream.jitter + wait) < s.now
        → IsFresh s planned of i (pause + delay_of stream wait) (from + delay_of stream wait) (to + delay_of stream wait) }
{}

/// Of a stream of single frames each of which is sent within its period, the frame that has ended last is the one with
/// the last release: so it is what has been received last that is never older than the longest pause and the delay
/// together, whether units keep order (`legal`) or don't (`any_order`); and there is one alone (`one`,
/// `one_in_any_order`).
pub fn newest_frames_are_fresh()
    ensures legal { (s : Schedule) (planned : ℕ → Bool) (of : Origins) (count : ℕ) (stream : ℕ
        → TheStream) (i wait pause from to : ℕ) → IsLegal s
        → ComeOneByOne s planned of count stream i wait
        → KeepsComing s planned of i pause from to → to + ((stream i).jitter + wait) < s.now
        → IsNewestFresh s planned of i (pause + delay_of (stream i) wait) (from + delay_of (stream i) wait) (to + delay_of (stream i) wait) }
    ensures any_order { (s : Schedule) (controllers : Controllers) (planned : ℕ
        → Bool) (of : Origins) (count : ℕ) (stream : ℕ → TheStream)
        (i wait pause from to : ℕ) → IsLegalInAnyOrder s controllers → ComeOneByOne s planned of count stream i wait
        → KeepsComing s planned of i pause from to → to + ((stream i).jitter + wait) < s.now
        → IsNewestFresh s planned of i (pause + delay_of (stream i) wait) (from + delay_of (stream i) wait) (to + delay_of (stream i) wait) }
    ensures one { (s : Schedule) (planned : ℕ → Bool) (of : Origins) (i t p q : ℕ) → IsLegal s → t ≤ s.now
        → IsNewest s planned of i t p → IsNewest s planned of i t q → p ≡ q }
    ensures one_in_any_order { (s : Schedule) (controllers : Controllers) (planned : ℕ
        → Bool) (of : Origins) (i t p q : ℕ)
        → IsLegalInAnyOrder s controllers → t ≤ s.now → IsNewest s planned of i t p → IsNewest s planned of i t q
        → p ≡ q }
{}

/// A bus on which frames are damaged has a legal schedule, in which damaged attempts and the error frames behind them
/// are frames of the least identifier: so each law of legal schedules holds of it (`legal`). So it is where units keep
/// no order (`any_order`), and there each frame is of the unit that it was of (`units`).
pub fn a_bus_with_errors_is_legal()
    ensures legal { (s : Schedule) (damaged : Damaged) → IsLegalWithErrors s damaged → IsLegal (with_errors s damaged) }
    ensures any_order { (s : Schedule) (controllers : Controllers) (damaged : Damaged)
        → IsLegalInAnyOrderWithErrors s controllers damaged
        → (own : ℕ) → IsLegalInAnyOrder (with_errors s damaged) (damage_ordered s controllers own) }
    ensures units { (s : Schedule) (controllers : Controllers) (own p : ℕ) → p < s.count
        → (damage_ordered s controllers own).unit p ≡ controllers.unit p }
{}

/// Where each frame of a stream without twins is queued after the end of the one before, however late this is, each
/// begins within a wait that has room for what `planned_frames_are_in_time` names, and has been sent within it and its
/// own length.
pub fn frames_behind_one_another_are_in_time()
    ensures sent { (s : Schedule) (traffic : Traffic) (others : Others) (longest : ℕ) (planned : ℕ
        → Bool) (of : Origins) → IsLegal s
        → (i wait : ℕ) → IsPlannedTraffic s traffic others longest planned of i
        → ((j : ℕ) → j < traffic.count → 0 < (traffic.stream j).period) → DemandFits traffic others longest i wait
        → ((j : ℕ) → traffic.are_twins i j ≡ false)
        → AreQueuedBehind s planned of i → AreSteady s planned of i
        → AreSentWithin s planned of i (traffic.stream i) wait }
{}

/// Messages of several frames that are sent in turn are whole within the times of all their frames, with the pauses
/// between them: the announcement of the first is queued by some bit, that of each other one by the end of the message
/// before, and each packet at most
/// `gap` bits after the end of the frame before.
pub fn messages_in_turn_are_whole_in_time()
    ensures whole { (s : Schedule) (planned : ℕ
        → Bool) (of : Origins) (a p gap wait more : ℕ) (announcements packets : TheStream)
        → AreSentWithin s planned of a announcements wait → AreSentWithin s planned of p packets more
        → (messages : List LongMessage) (by : ℕ) → AreSentInTurn s gap by messages
        → All (IsBroadcast s planned of a p) messages
        → by + time_of_messages (wait + announcements.bits) gap (more + packets.bits) messages < s.now
        → all_whole_at s by messages ≤ by + time_of_messages (wait + announcements.bits) gap (more + packets.bits) messages }
{}

/// A unit that sends one message at a time, behind which one of each flow waits at most, queues no more than is wanted:
/// of its packets those of the message that is under way as a time begins, and of each flow those of one message and of
/// as many as are wanted in this time (`packets`); and of its announcements as many as these (`announcements`). Of a
/// flow whose releases are a period apart as many are wanted as lie in this time, or as much before it as they may be
/// wanted later (`apart`).
pub fn messages_ask_for_no_more()
    ensures apart { (demand : Demand) (messages : UnitMessages) (f : ℕ) → AreReleasedApart demand messages f
        → HavePeriods demand
        → 1 ≤ (want_at demand f).more → WantNoMore demand messages f }
    ensures packets { (s : Schedule) (planned : ℕ
        → Bool) (of : Origins) (j : ℕ) (demand : Demand) (messages : UnitMessages)
        → AreWantedInTurn demand messages → AreFramesOfMessages s planned of j demand messages → HasLongest demand
        → (t span : ℕ) → releases_in s planned of j t span ≤ frames_wanted span demand }
    ensures announcements { (s : Schedule) (planned : ℕ
        → Bool) (of : Origins) (j : ℕ) (demand : Demand) (messages : UnitMessages)
        → AreWantedInTurn demand messages → AreFramesOfMessages s planned of j demand messages
        → AreAnnouncements s planned of j messages
        → (t span : ℕ) → releases_in s planned of j t span ≤ frames_wanted span demand }
{}

/// So much can be asked for: a flow of two packets whose messages are wanted as soon as they may be has in some time as
/// many of them as is reported.
pub fn what_is_wanted_is_reached()
    ensures { (s : Schedule) × (planned : ℕ → Bool) × (of : Origins) × (demand : Demand) × (messages : UnitMessages)
        × AreWantedInTurn demand messages × AreFramesOfMessages s planned of 0 demand messages × HasLongest demand
        × (releases_in s planned of 0 72 51 ≡ frames_wanted 51 demand) }
{}

/// Where each message answers a request of its own, and is queued so many bits behind the moment of this at most, and n
/// + 1 moments of a request are n times as far apart as two, there are no more of them in any time than as many as
/// periods begin in it and in so many bits before, and for each request but one, one beside: where the requests together
/// come no more often than a period lets (`frames`, as `AreAsWanted` asks it of a stream that is queued up to `early` bits
/// later). So it is of the messages that are wanted of a unit that sends one at a time (`messages`).
pub fn answers_ask_for_no_more()
    ensures frames { (s : Schedule) (planned : ℕ → Bool) (of : Origins) (j early own : ℕ) (want : TheWant)
        (requesters : Requesters) (answered : RequestsAnswered) → 0 < requesters.bit → AskNoOftenerThan requesters own
        → 0 < want.period → want.period * requesters.bit ≤ own → requesters.count ≤ want.more + 1
        → AreAnswers (IsOf s planned of j) s.queued (early + want.jitter) want.frames requesters answered
        → (t span : ℕ) → queuings_in s planned of j t span ≤ frames_of_want (span + early) want }
    ensures messages { (demand : Demand) (messages : UnitMessages) (f own : ℕ) (requesters : Requesters)
        (answered : RequestsAnswered) → 0 < requesters.bit → AskNoOftenerThan requesters own → 0 < (want_at demand f).period
        → (want_at demand f).period * requesters.bit ≤ own → 0 < (want_at demand f).more
        → requesters.count ≤ (want_at demand f).more
        → AreAnswers (λ m. (m < messages.count) × (messages.flow m ≡ f)) messages.wanted (want_at demand f).jitter 1 requesters answered
        → WantNoMore demand messages f }
{}

/// So many can be asked for: two requests that come at once are answered at once, the first ones as late as they may be
/// and the next ones at their moments.
pub fn what_is_answered_is_reached()
    ensures { (s : Schedule) × (planned : ℕ → Bool) × (of : Origins) × (want : TheWant) × (requesters : Requesters)
        × (answered : RequestsAnswered) × (own : ℕ) × AskNoOftenerThan requesters own × (want.period * requesters.bit ≤ own)
        × (requesters.count ≡ want.more + 1)
        × AreAnswers (IsOf s planned of 0) s.queued want.jitter want.frames requesters answered
        × (queuings_in s planned of 0 50 151 ≡ frames_of_want 151 want) }
{}

/// Frames of which two of a stream may be queued at once, as answers to requests that come at once, are in time where the
/// wait has room for what the stream itself can queue too, but for the frame that waits (`in_time`); so it is beside
/// units that keep no order (`beside`), and up to a bit by what is seen up to there (`until`, `beside_until`).
pub fn answers_are_in_time()
    ensures in_time { (s : Schedule) (traffic : Traffic) (others : Others) (longest : ℕ) (planned : ℕ
        → Bool) (of : Origins) → IsLegal s
        → (i wait : ℕ) → IsPlannedTraffic s traffic others longest planned of i
        → ((j : ℕ) → j < traffic.count → 0 < (traffic.stream j).period) → (traffic.stream i).bits ≤ longest
        → OwnDemandFits traffic others longest i wait → IsStreamInTime s planned of i (traffic.stream i) wait }
    ensures beside { (s : Schedule) (controllers : Controllers) (traffic : Traffic) (others : Others) (longest : ℕ) (planned : ℕ → Bool) (of : Origins)
        → IsLegalInAnyOrder s controllers → (i wait : ℕ) → IsPlannedTraffic s traffic others longest planned of i
        → ((j : ℕ) → j < traffic.count → 0 < (traffic.stream j).period) → IsOrderedStream s controllers planned of i
        → (waits : ℕ → ℕ) → HaveWaits s controllers traffic planned of i waits → (traffic.stream i).bits ≤ longest
        → OwnDemandFits (buffered_traffic traffic waits) others longest i wait
        → IsStreamInTime s planned of i (traffic.stream i) wait }
    ensures until { (s : Schedule) (traffic : Traffic) (others : Others) (longest : ℕ) (planned : ℕ
        → Bool) (of : Origins) (i by : ℕ) → by ≤ s.now
        → IsPlannedUntil s traffic others longest planned of i by → IsLegal s → (wait : ℕ)
        → ((j : ℕ) → j < traffic.count → 0 < (traffic.stream j).period) → (traffic.stream i).bits ≤ longest
        → OwnDemandFits traffic others longest i wait → AreBegunUntil s planned of i wait by }
    ensures beside_until { (s : Schedule) (controllers : Controllers) (traffic : Traffic) (others : Others) (longest : ℕ) (planned : ℕ → Bool) (of : Origins) (i by : ℕ)
        → by ≤ s.now → IsPlannedUntil s traffic others longest planned of i by → IsLegalInAnyOrder s controllers
        → ((j : ℕ) → j < traffic.count → 0 < (traffic.stream j).period) → IsOrderedStream s controllers planned of i
        → (wait : ℕ) (waits : ℕ → ℕ) → HaveWaitsUntil s controllers traffic planned of i waits by
        → (traffic.stream i).bits ≤ longest → OwnDemandFits (buffered_traffic traffic waits) others longest i wait
        → AreBegunUntil s planned of i wait by }
{}

/// So long they may wait: there is a legal schedule in which two frames of a stream are queued at once, and the second
/// one waits for exactly as long as the bound says.
pub fn a_bound_of_answers_is_reached()
    ensures { (s : Schedule) × (traffic : Traffic) × (others : Others) × (planned : ℕ → Bool) × (of : Origins)
        × IsLegal s
        × IsPlannedTraffic s traffic others 160 planned of 0
        × ((j : ℕ) → j < traffic.count → 0 < (traffic.stream j).period)
        × ((traffic.stream 0).bits ≤ 160) × OwnDemandFits traffic others 160 0 320 × (2 < s.count)
        × (planned 1 ≡ true) × (planned 2 ≡ true) × (of.source 1 ≡ 0) × (of.source 2 ≡ 0)
        × (s.queued 1 ≡ s.queued 2) × (s.start 1 ≡ s.queued 2 + 160) × (s.queued 2 + 320 < s.now)
        × (s.start 2 ≡ s.queued 2 + 320) }
{}

/// The premises can be met, and there is a bus on which the bound is reached: a legal schedule of planned traffic in
/// which a frame waits for exactly as long as it says.
pub fn a_bound_is_reached()
    ensures { (s : Schedule) × (traffic : Traffic) × (others : Others) × (planned : ℕ → Bool) × (of : Origins)
        × IsLegal s
        × IsPlannedTraffic s traffic others 160 planned of 0 × DemandFits traffic others 160 0 160 × (1 < s.count)
        × (planned 1 ≡ true)
        × (of.source 1 ≡ 0) × (s.queued 1 + 160 < s.now) × (s.start 1 ≡ s.queued 1 + 160) }
{}

/// So it is of twins: there is a legal schedule in which a frame waits for exactly as long as the bound says, while one
/// of a twin goes before it that has the same identifier.
pub fn a_bound_of_twins_is_reached()
    ensures { (s : Schedule) × (traffic : Traffic) × (others : Others) × (planned : ℕ → Bool) × (of : Origins)
        × IsLegal s
        × IsPlannedTraffic s traffic others 160 planned of 0
        × ((j : ℕ) → j < traffic.count → 0 < (traffic.stream j).period)
        × DemandFits traffic others 160 0 320 × (2 < s.count) × (planned 1 ≡ true) × (planned 2 ≡ true)
        × (of.source 1 ≡ 1) × (of.source 2 ≡ 0)
        × (s.ident 1 ≡ s.ident 2) × (s.start 1 ≡ s.queued 2 + 160) × (s.queued 2 + 320 < s.now)
        × (s.start 2 ≡ s.queued 2 + 320) }
{}

/// So it is where a unit keeps no order: there is a schedule, legal in any order, whose frames keep to a queue group,
/// and in which a frame of such a unit waits for exactly as long as the bound says. While it waits, another frame of
/// its unit goes before it that has a larger identifier.
pub fn a_bound_of_a_queue_group_is_reached()
    ensures { (s : Schedule) × (controllers : Controllers) × (traffic : Traffic) × (planned : ℕ → Bool) × (of : Origins)
        × (queue_group : QueueGroup) × IsLegalInAnyOrder s controllers
        × IsTrafficOfQueueGroup s controllers traffic 0 160 planned of queue_group
        × ((j : ℕ) → j < traffic.count → 0 < (traffic.stream j).period) × (queue_group.has 0 ≡ true)
        × ((traffic.stream 0).bits ≤ 160) × QueueGroupDemandFits traffic queue_group 0 160 0 320 × (2 < s.count)
        × (planned 2 ≡ true) × (of.source 2 ≡ 0) × IsUnordered controllers 2
        × (controllers.unit 1 ≡ controllers.unit 2) × (s.ident 2 < s.ident 1) × (s.start 1 ≡ s.queued 2 + 160)
        × (s.queued 2 + 320 < s.now) × (s.start 2 ≡ s.queued 2 + 320) }
{}

/// The premises of broadcasts can be met: there is a legal schedule of any length in which each unit sends long
/// messages to all, one behind the other, its frames a gap apart, and which keeps what is asked of the packets and of
/// the announcements of each; so it does what is asked of frames of which each is queued after the end of the one
/// before.
pub fn broadcasts_can_be_sent()
    ensures legal { (senders : Senders) → AreSenders senders → (count : ℕ) → IsLegal (in_rounds senders count) }
    ensures planned { (senders : Senders) → AreSenders senders → (count i : ℕ)
        → IsPlannedTraffic (in_rounds senders count) (traffic_of_rounds senders) nothing_else senders.bits all_planned (of_rounds senders) i }
    ensures behind { (senders : Senders) → AreSenders senders → (count i : ℕ)
        → AreQueuedBehind (in_rounds senders count) all_planned (of_rounds senders) i }
    ensures steady { (senders : Senders) → AreSenders senders → (count i : ℕ)
        → AreSteady (in_rounds senders count) all_planned (of_rounds senders) i }
{}

/// Where units keep no order a frame waits for its whole queue group: in every schedule in which each unit takes part
/// with one of its frames wherever a frame begins, a frame of the queue group begins within a wait that has room for
/// the frame that has begun, for what isn't planned, and for all streams of the queue group and those of which a frame
/// may have a smaller identifier than its level, but for the frame itself (`begun`). So it has been sent within its
/// delay from its release (`in_time`), and within this wait and its own length (`sent`), however often it comes.
pub fn frames_of_a_queue_group_are_in_time()
    ensures begun { (s : Schedule) (controllers : Controllers) (traffic : Traffic) (unplanned longest : ℕ) (planned : ℕ
        → Bool) (of : Origins) (queue_group : QueueGroup)
        → IsLegalInAnyOrder s controllers
        → IsTrafficOfQueueGroup s controllers traffic unplanned longest planned of queue_group
        → ((j : ℕ) → j < traffic.count → 0 < (traffic.stream j).period) → (i wait : ℕ) → queue_group.has i ≡ true
        → (traffic.stream i).bits ≤ longest
        → QueueGroupDemandFits traffic queue_group unplanned longest i wait → AreBegunWithin s planned of i wait }
    ensures in_time { (s : Schedule) (controllers : Controllers) (traffic : Traffic) (unplanned longest : ℕ) (planned : ℕ → Bool) (of : Origins) (queue_group : QueueGroup)
        → IsLegalInAnyOrder s controllers
        → IsTrafficOfQueueGroup s controllers traffic unplanned longest planned of queue_group
        → ((j : ℕ) → j < traffic.count → 0 < (traffic.stream j).period) → (i wait : ℕ) → queue_group.has i ≡ true
        → (traffic.stream i).bits ≤ longest
        → QueueGroupDemandFits traffic queue_group unplanned longest i wait
        → IsStreamInTime s planned of i (traffic.stream i) wait }
    ensures sent { (s : Schedule) (controllers : Controllers) (traffic : Traffic) (unplanned longest : ℕ) (planned : ℕ
        → Bool) (of : Origins) (queue_group : QueueGroup)
        → IsLegalInAnyOrder s controllers
        → IsTrafficOfQueueGroup s controllers traffic unplanned longest planned of queue_group
        → ((j : ℕ) → j < traffic.count → 0 < (traffic.stream j).period) → (i wait : ℕ) → queue_group.has i ≡ true
        → (traffic.stream i).bits ≤ longest
        → QueueGroupDemandFits traffic queue_group unplanned longest i wait
        → AreSentWithin s planned of i (traffic.stream i) wait }
{}

/// Beside units that keep no order each frame is one of a legal schedule from the end of its buffering delay on
/// (`legal`), which is where it is ready if its unit keeps order (`ready`). So what is known of frames of such units
/// holds, where a frame of another unit counts as queued so many bits later as it may wait: frames of a stream of
/// single frames are in time (`in_time`), and so are those, without twins, of which each is queued after the end of the
/// one before (`sent`). Of each stream that may go before there has to be such a wait.
pub fn frames_beside_any_order_are_in_time()
    ensures legal { (s : Schedule) (controllers : Controllers) → IsLegalInAnyOrder s controllers
        → IsLegal (after_buffering s) }
    ensures ready { (s : Schedule) (controllers : Controllers) → IsLegalInAnyOrder s controllers
        → (p : ℕ) → p < s.count → IsFromOrdered controllers p → (after_buffering s).queued p ≡ s.queued p }
    ensures in_time { (s : Schedule) (controllers : Controllers) (traffic : Traffic) (others : Others) (longest : ℕ) (planned : ℕ → Bool) (of : Origins)
        → IsLegalInAnyOrder s controllers → (i wait : ℕ) → IsPlannedTraffic s traffic others longest planned of i
        → ((j : ℕ) → j < traffic.count → 0 < (traffic.stream j).period) → IsOrderedStream s controllers planned of i
        → (waits : ℕ → ℕ) → HaveWaits s controllers traffic planned of i waits
        → DemandFits (buffered_traffic traffic waits) others longest i wait
        → IsSingle (traffic.stream i) → delay_of (traffic.stream i) wait ≤ (traffic.stream i).period
        → IsStreamInTime s planned of i (traffic.stream i) wait }
    ensures sent { (s : Schedule) (controllers : Controllers) (traffic : Traffic) (others : Others) (longest : ℕ) (planned : ℕ → Bool) (of : Origins)
        → IsLegalInAnyOrder s controllers → (i wait : ℕ) → IsPlannedTraffic s traffic others longest planned of i
        → ((j : ℕ) → j < traffic.count → 0 < (traffic.stream j).period) → IsOrderedStream s controllers planned of i
        → (waits : ℕ → ℕ) → HaveWaits s controllers traffic planned of i waits
        → DemandFits (buffered_traffic traffic waits) others longest i wait
        → ((j : ℕ) → traffic.are_twins i j ≡ false)
        → AreQueuedBehind s planned of i → AreSteady s planned of i
        → AreSentWithin s planned of i (traffic.stream i) wait }
{}

/// What is said of frames up to a bit rests on what is seen up to there: each of the stream's frames that should have
/// begun before it has done so, though of frames that are queued later nothing is known but their identifiers and
/// lengths (`until`); of a queue group of units that keep no order too (`queue_group`), and of a unit that keeps order
/// beside such ones (`beside`).
pub fn frames_are_in_time_until()
    ensures until { (s : Schedule) (traffic : Traffic) (others : Others) (longest : ℕ) (planned : ℕ
        → Bool) (of : Origins) (i by : ℕ) → by ≤ s.now
        → IsPlannedUntil s traffic others longest planned of i by → IsLegal s → (wait : ℕ)
        → ((j : ℕ) → j < traffic.count → 0 < (traffic.stream j).period) → DemandFits traffic others longest i wait
        → IsSingle (traffic.stream i)
        → delay_of (traffic.stream i) wait ≤ (traffic.stream i).period → AreBegunUntil s planned of i wait by }
    ensures queue_group { (s : Schedule) (controllers : Controllers) (traffic : Traffic) (unplanned longest : ℕ) (planned : ℕ → Bool) (of : Origins) (queue_group : QueueGroup)
        (by : ℕ) → by ≤ s.now → IsQueueGroupUntil s controllers traffic unplanned longest planned of queue_group by → IsLegalInAnyOrder s controllers
        → ((j : ℕ) → j < traffic.count → 0 < (traffic.stream j).period) → (i wait : ℕ) → queue_group.has i ≡ true
        → (traffic.stream i).bits ≤ longest
        → QueueGroupDemandFits traffic queue_group unplanned longest i wait → AreBegunUntil s planned of i wait by }
    ensures beside { (s : Schedule) (controllers : Controllers) (traffic : Traffic) (others : Others) (longest : ℕ) (planned : ℕ → Bool) (of : Origins) (i by : ℕ)
        → by ≤ s.now → IsPlannedUntil s traffic others longest planned of i by → IsLegalInAnyOrder s controllers
        → ((j : ℕ) → j < traffic.count → 0 < (traffic.stream j).period) → IsOrderedStream s controllers planned of i
        → (wait : ℕ) (waits : ℕ → ℕ) → HaveWaitsUntil s controllers traffic planned of i waits by
        → DemandFits (buffered_traffic traffic waits) others longest i wait
        → IsSingle (traffic.stream i) → delay_of (traffic.stream i) wait ≤ (traffic.stream i).period
        → AreBegunUntil s planned of i wait by }
{}
