// What is wrong with a certificate, a report, a proposal. Each fault names the place of the message that was judged.
ghost use Rattle.std.specs.Prelude.{◌≡◌, not};
ghost use Rattle.quorum.specs.Firsts.{answered, fault_if};
ghost use Rattle.mail.specs.Numbers.{certificate_numbers, proposal_numbers, report_numbers};
ghost use Rattle.mail.specs.declared.faults.ReportFault.TheVariants.{InCertificate};
ghost use Rattle.mail.specs.declared.faults.ProposalFault.TheVariants.{InReport};

use quorum::faults::FaultNumbers;

#[derive(Clone, Copy, PartialEq, Eq, Debug)]
pub enum CertificateFault {
    // The cited processes are no quorum.
    NoQuorum { place: u16 },
    // The message cited for the process of this slot, the lowest such, is not its PREPARED.
    WrongMessage { place: u16, slot: u8 },
}

#[derive(Clone, Copy, PartialEq, Eq, Debug)]
pub enum ReportFault {
    // The locked view is not below the view.
    LockNotBelow { place: u16 },
    InCertificate(CertificateFault),
}

#[derive(Clone, Copy, PartialEq, Eq, Debug)]
pub enum ProposalFault {
    // The sender does not lead the view.
    NotLeader { place: u16 },
    NotValid { place: u16 },
    // The cited processes are no quorum.
    TooFewReports { place: u16 },
    // What is cited for the process of this slot, the lowest such, is no report of it and of this view.
    NotReport { place: u16, slot: u8 },
    InReport(ReportFault),
    // Reports are locked, and none with the highest locked view has this value.
    NotHighest { place: u16 },
}

// By hand, as the others are: a derived `From` has no contract, and the contract of a `?` needs it.
impl From<CertificateFault> for ReportFault {
    ghost from_gives = { λ e r. r ≡ InCertificate e };

    fn from(fault: CertificateFault) -> ReportFault {
        ReportFault::InCertificate(fault)
    }
}

impl From<ReportFault> for ProposalFault {
    ghost from_gives = { λ e r. r ≡ InReport e };

    fn from(fault: ReportFault) -> ProposalFault {
        ProposalFault::InReport(fault)
    }
}

impl CertificateFault {
    pub fn numbers(self) -> FaultNumbers
        ensures { result ≡ certificate_numbers self }
    {
        match self {
            CertificateFault::NoQuorum { place } => FaultNumbers::new(20, 1, place, 32),
            CertificateFault::WrongMessage { place, slot } => FaultNumbers::new(21, 1, place, slot),
        }
    }
}

impl ReportFault {
    pub fn numbers(self) -> FaultNumbers
        ensures { result ≡ report_numbers self }
    {
        match self {
            ReportFault::LockNotBelow { place } => FaultNumbers::new(22, 2, place, 32),
            ReportFault::InCertificate(fault) => fault.numbers(),
        }
    }
}

impl ProposalFault {
    pub fn numbers(self) -> FaultNumbers
        ensures { result ≡ proposal_numbers self }
    {
        match self {
            ProposalFault::NotLeader { place } => FaultNumbers::new(23, 3, place, 32),
            ProposalFault::NotValid { place } => FaultNumbers::new(24, 3, place, 32),
            ProposalFault::TooFewReports { place } => FaultNumbers::new(25, 3, place, 32),
            ProposalFault::NotReport { place, slot } => FaultNumbers::new(26, 3, place, slot),
            ProposalFault::InReport(fault) => fault.numbers(),
            ProposalFault::NotHighest { place } => FaultNumbers::new(27, 3, place, 32),
        }
    }
}

// The fault, unless the fact holds.
pub fn check<F: Copy>(holds: bool, fault: F) -> Result<(), F>
    ensures { result ≡ answered (fault_if (not holds) fault) tt }
{
    if holds { Ok(()) } else { Err(fault) }
}
