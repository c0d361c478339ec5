// Why a call is refused.
ghost use Rattle.std.specs.Prelude.{◌≡◌};
ghost use Rattle.protocol.specs.Sweeps.{is_full};
ghost use Rattle.protocol.specs.Numbers.{refusal_numbers};
ghost use Rattle.protocol.specs.declared.refusal.Refusal.TheVariants.{InProposal, InReport};

use mail::faults::{ProposalFault, ReportFault};
use quorum::faults::FaultNumbers;

#[derive(Clone, Copy, PartialEq, Eq, Debug)]
pub enum Refusal {
    // There are fewer own values than processes.
    FewValues,
    // The table is shorter than the number of processes.
    ShortTable,
    // The post has no lawful length, or another one than at opening.
    PostLength,
    // The own value of this run process, the lowest such, is not valid.
    OwnNotValid { slot: u8 },
    NoProcess,
    // The process is foreign.
    Foreign,
    // The process is run.
    Run,
    PostFull,
    NoMessage,
    NotWellFormed,
    // The message's view is below the row's.
    Late { place: u16 },
    // The message's view is above the row's.
    Early { place: u16 },
    // The entry is held, or the wish is not above the one heard.
    Held { place: u16 },
    NoMove,
    // There is no view after the row's.
    LastView,
    // The process does not lead the view.
    NotLeader { place: u16 },
    InReport(ReportFault),
    InProposal(ProposalFault),
}

impl From<ReportFault> for Refusal {
    ghost from_gives = { λ e r. r ≡ InReport e };

    fn from(fault: ReportFault) -> Refusal {
        Refusal::InReport(fault)
    }
}

impl From<ProposalFault> for Refusal {
    ghost from_gives = { λ e r. r ≡ InProposal e };

    fn from(fault: ProposalFault) -> Refusal {
        Refusal::InProposal(fault)
    }
}

impl From<Refusal> for FaultNumbers {
    ghost from_gives = { λ e r. r ≡ refusal_numbers e };

    fn from(refusal: Refusal) -> FaultNumbers {
        refusal.numbers()
    }
}

impl Refusal {
    pub fn numbers(self) -> FaultNumbers
        ensures { result ≡ refusal_numbers self }
    {
        match self {
            Refusal::FewValues => FaultNumbers::new(1, 4, 0, 32),
            Refusal::ShortTable => FaultNumbers::new(2, 4, 0, 32),
            Refusal::PostLength => FaultNumbers::new(3, 4, 0, 32),
            Refusal::OwnNotValid { slot } => FaultNumbers::new(4, 4, 0, slot),
            Refusal::NoProcess => FaultNumbers::new(5, 4, 0, 32),
            Refusal::Foreign | Refusal::Run => FaultNumbers::new(6, 4, 0, 32),
            Refusal::PostFull => FaultNumbers::new(7, 4, 0, 32),
            Refusal::NoMessage => FaultNumbers::new(8, 4, 0, 32),
            Refusal::NotWellFormed => FaultNumbers::new(9, 4, 0, 32),
            Refusal::Late { place } => FaultNumbers::new(10, 4, place, 32),
            Refusal::Early { place } => FaultNumbers::new(11, 4, place, 32),
            Refusal::Held { place } => FaultNumbers::new(12, 4, place, 32),
            Refusal::NoMove => FaultNumbers::new(13, 4, 0, 32),
            Refusal::LastView => FaultNumbers::new(14, 4, 0, 32),
            Refusal::NotLeader { place } => FaultNumbers::new(15, 4, place, 32),
            Refusal::InReport(fault) => fault.numbers(),
            Refusal::InProposal(fault) => fault.numbers(),
        }
    }

    // Whether the post was full.
    pub fn is_full_post(self) -> bool
        ensures { result ≡ is_full self }
    {
        self == Refusal::PostFull
    }
}
