//! What can be wrong with what gateways send on.
ghost use Rattle.std.specs.Prelude.{◌≡◌};

/// One thing that is wrong with what the gateways of a vehicle send on, named by places from 0. Findings are in order
/// by their number, then by their places.
#[derive(Clone, Copy)]
pub enum VehicleFinding {
    /// G1: no flow is an input of the forward.
    NoInput(usize),
    /// G2: several flows are.
    ManyInputs(usize),
    /// G3: no flow is an output of the forward.
    NoOutput(usize),
    /// G4: several flows are.
    ManyOutputs(usize),
    /// G5: the forward copies, and messages of the group that it sends needn't be of the one that it hears.
    LayoutDiffers(usize),
    /// G6: of the group that the forward sends, a signal doesn't say what the one says that goes into it.
    SignalDiffers(usize, usize),
    /// G7: two forwards feed one flow, and each may say when it is sent, or what a signal of it is.
    TwoForwards(usize, usize),
    /// G8: the forward comes after itself.
    ForwardLoop(usize),
    /// G9: no flow brings the need's unit what it needs from the unit that is named.
    NeedUnmet(usize),
    /// G14: the gateway has two units on the bus, one of which keeps no order.
    SharedQueue(usize, usize),
}

impl VehicleFinding {
    ghost use Rattle.j39_vehicle_findings.specs.VehicleFindings.{finding_number};

    /// The number under which it is known, without the G.
    pub fn number(&self) -> u8
        ensures { result ≡ finding_number self.now }
    {
        match self {
            VehicleFinding::NoInput(_) => 1,
            VehicleFinding::ManyInputs(_) => 2,
            VehicleFinding::NoOutput(_) => 3,
            VehicleFinding::ManyOutputs(_) => 4,
            VehicleFinding::LayoutDiffers(_) => 5,
            VehicleFinding::SignalDiffers(..) => 6,
            VehicleFinding::TwoForwards(..) => 7,
            VehicleFinding::ForwardLoop(_) => 8,
            VehicleFinding::NeedUnmet(_) => 9,
            VehicleFinding::SharedQueue(..) => 14,
        }
    }
}
