//! Laws of what gateways hand on from bus to bus.
ghost use Rattle.std.specs.Prelude.{◌≡◌, ◌≢◌, ℕ, true, ◌+◌, ◌*◌, ◌<◌, ◌≤◌, ◌⊎◌, List};
ghost use Rattle.j39_timing.specs.FreshFrames.{KeepsComing};
ghost use Rattle.j39_timing.specs.Traffic.{IsStreamInTime, delay_of};
ghost use Rattle.j39_timing.specs.declared.stream.Stream.{Stream as TheStream};
ghost use Rattle.j39_vehicle_laws.specs.Gateways.{AreApart, AreHops, Carrier, Comes, ComesSo, Coming, EndWithin, HandsOn};
ghost use Rattle.j39_vehicle_laws.specs.Gateways.{HasOwnReleases, Hop, IsClock, IsHandedOn, IsIts, IsOldAtMost, IsYoung};
ghost use Rattle.j39_vehicle_laws.specs.Gateways.{KeepTo, KeepsReleasing, KeepsToStream, SendsNewest, age_of};
ghost use Rattle.j39_vehicle_laws.specs.Gateways.{coming_at_last, last_of, steady, time_of};
ghost use Rattle.j39_vehicle_laws.specs.Vehicles.{IsKnown, KeepsItsStreams, Vehicle};

/// Of clocks only this is asked, that no number of bits lasts longer or shorter than the longest and the shortest bits
/// do. One all of whose bits are as long is such a clock (`steady`): then what is said in bits of how often messages of a
/// bus come, and how far apart they are, says the same of true time (`comes`, `apart`), and ages over gateways are those
/// of clocks that agree.
pub fn steady_clocks_are_clocks()
    ensures steady { (phase unit : ℕ) → 0 < unit → IsClock (steady phase unit) }
    ensures comes { (x : Carrier) (pause from to : ℕ) → IsClock x.clock → HasOwnReleases x
        → KeepsComing x.schedule x.planned x.of x.source pause from to
        → KeepsReleasing x (x.clock.longest * pause) (time_of x.clock from) (time_of x.clock to) }
    ensures apart { (x : Carrier) (period : ℕ) → IsClock x.clock → HasOwnReleases x
        → ((p q : ℕ) → IsIts x p → IsIts x q → p ≢ q
        → (x.of.since p + period ≤ x.of.since q) ⊎ (x.of.since q + period ≤ x.of.since p))
        → AreApart x (x.clock.shortest * period) }
{}

/// What is handed on from bus to bus comes as often as it does at its origin, and how long behind its release, how old
/// its value was then, and how old it is at most where it is received: on its own bus (`by_itself`), handed on directly
/// (`directly`), or sent at a gateway's own beat, by what it is at the gateway (`at_releases`); and so how old it is
/// (`young`), behind however many gateways (`at_last`).
pub fn ages_add_over_gateways()
    ensures by_itself { (x : Carrier) (stream : TheStream) (wait interval old from to early : ℕ) → IsClock x.clock
        → IsStreamInTime x.schedule x.planned x.of x.source stream wait → KeepTo x stream → HasOwnReleases x
        → KeepsReleasing x interval from to → to + x.clock.longest * (stream.jitter + wait) < time_of x.clock x.schedule.now
        → early + interval ≤ from → IsOldAtMost x old early to
        → Comes x old interval (x.clock.longest * delay_of stream wait) from to }
    ensures directly { (x y : Carrier) (stream : TheStream) (wait within old interval behind from to : ℕ) → IsClock y.clock
        → Comes x old interval behind from to → HandsOn x y within
        → IsStreamInTime y.schedule y.planned y.of y.source stream wait → KeepTo y stream
        → ((q : ℕ) → IsIts y q → time_of y.clock (y.of.since q) ≤ y.release q)
        → to + y.clock.longest * (stream.jitter + wait) < time_of y.clock y.schedule.now
        → Comes y old interval (behind + (within + y.clock.longest * (wait + stream.bits))) from to }
    ensures at_releases { (x y : Carrier) (within age from to : ℕ) → IsYoung x age from to → SendsNewest x y within
        → IsOldAtMost y (age + within) (from + within) (to + within) }
    ensures young { (x : Carrier) (old interval behind from to : ℕ) → Comes x old interval behind from to
        → IsYoung x (old + (interval + behind)) (from + behind) (to + behind) }
    ensures at_last { (x : Carrier) (c : Coming) (hops : List Hop) → ComesSo x c → AreHops x c hops
        → let d = coming_at_last c hops in
        IsYoung (last_of x hops) (age_of d) (d.from + d.behind) (d.to + d.behind) }
{}

/// What a bus takes for granted of a stream that is handed on to it directly follows from what comes on the other bus:
/// its messages are a period apart, where they are there, and are queued so late at most, where there is room for the
/// input's time and the gateway's.
pub fn forwarded_frames_keep_to_their_streams()
    ensures keeps { (x y : Carrier) (within behind period jitter apart : ℕ) → IsClock y.clock → EndWithin x behind
        → IsHandedOn x y within
        → AreApart x apart → behind + within ≤ y.clock.shortest * jitter → y.clock.longest * period ≤ apart
        → KeepsToStream y period jitter }
{}

/// What is handed on directly from bus to bus keeps to the streams that are planned for it, also where buses hand on to
/// one another: nothing of it needs to be known but what gateways do, that its streams' lateness has room for what
/// comes before, and that their periods are no longer than those of where it comes from.
pub fn gateways_keep_streams()
    ensures keeps { (v : Vehicle) → IsKnown v → (b : ℕ) → KeepsItsStreams (v.bus b) }
{}

/// What is asked of a vehicle for this can be met: there is one of which a frame of its first bus is handed on to
/// another one.
pub fn a_frame_is_handed_on()
    ensures { (v : Vehicle) × IsKnown v × (v.direct 1 0 ≡ true) × (v.from_bus 1 0 ≡ 0) × ((v.bus 0).schedule.count ≡ 1)
        × ((v.bus 1).schedule.count ≡ 1)
        × ((v.bus 1).planned 0 ≡ true) × ((v.bus 1).of.source 0 ≡ 0)
        × ((v.bus 0).schedule.start 0 + (v.bus 0).schedule.bits 0 ≡ (v.bus 1).schedule.queued 0) }
{}
