// How a call ends.
ghost use Rattle.std.specs.Prelude.{◌≡◌};
ghost use Rattle.explain_top.specs.Answers.{code_of, or_of_log, status_of, status_for, status_at, status_of_budget, status_of_session, status_of_verification};

use explain_budget::BudgetEnd;
use explain_calls::End;
use explain_check::Verdict;
use explain_data::Finding;
use explain_verify::Verification;
use lsp_session::SessionEnd;

/// How a call ends.
#[derive(Clone, Copy, Debug, PartialEq, Eq)]
pub enum Status {
    /// What was asked for is done, and nothing is wrong.
    Done,
    /// What was checked has a fault: a source spells no typed program, a declared bound is not kept, or a certificate is refused;
    /// or an editor ended its session before it was shut down.
    Faulty,
    /// The words ask for nothing that there is, a file can't be read, or one beside what is checked is faulty; or an editor
    /// sends what is no message.
    Refused,
    /// The analysis could not be made.
    NotAnalysed,
    /// Out was not written as a whole.
    WriteFault,
    /// No memory was left.
    NoMemory,
}

impl Status {
    /// The status of the process: 0, 1, 2, 3, 12 or 70.
    pub fn code(self) -> u8
        ensures { result ≡ code_of self }
    {
        match self {
            Status::Done => 0,
            Status::Faulty => 1,
            Status::Refused => 2,
            Status::NotAnalysed => 3,
            Status::WriteFault => 12,
            Status::NoMemory => 70,
        }
    }

    /// This one, where something is wrong, and else that of a log that was to be left.
    pub(crate) fn or_of_log(self, left: Status) -> Status
        ensures { result ≡ or_of_log self left }
    {
        match self {
            Status::Done => left,
            _ => self,
        }
    }
}

impl From<Verdict> for Status {
    ghost from_gives = { λ verdict status. status ≡ status_of verdict };

    fn from(verdict: Verdict) -> Status {
        match verdict {
            Verdict::Typed => Status::Done,
            Verdict::Faulty => Status::Faulty,
            Verdict::Unread => Status::Refused,
        }
    }
}

impl From<Finding> for Status {
    ghost from_gives = { λ finding status. status ≡ status_for finding };

    fn from(finding: Finding) -> Status {
        match finding {
            Finding::Fits => Status::Done,
            Finding::Untyped => Status::Faulty,
            Finding::Refused => Status::Refused,
        }
    }
}

impl From<End> for Status {
    ghost from_gives = { λ end status. status ≡ status_at end };

    fn from(end: End) -> Status {
        match end {
            End::Told => Status::Done,
            End::Refused => Status::Refused,
            End::NotAnalysed => Status::NotAnalysed,
        }
    }
}

impl From<BudgetEnd> for Status {
    ghost from_gives = { λ end status. status ≡ status_of_budget end };

    fn from(end: BudgetEnd) -> Status {
        match end {
            BudgetEnd::AllKept => Status::Done,
            BudgetEnd::Broken => Status::Faulty,
            BudgetEnd::Refused => Status::Refused,
            BudgetEnd::NotAnalysed => Status::NotAnalysed,
        }
    }
}

impl From<Verification> for Status {
    ghost from_gives = { λ end status. status ≡ status_of_verification end };

    fn from(end: Verification) -> Status {
        match end {
            Verification::Holds => Status::Done,
            Verification::Fails => Status::Faulty,
            Verification::Refused => Status::Refused,
            Verification::NotAnalysed => Status::NotAnalysed,
        }
    }
}

impl From<SessionEnd> for Status {
    ghost from_gives = { λ end status. status ≡ status_of_session end };

    fn from(end: SessionEnd) -> Status {
        match end {
            SessionEnd::Exited(0) | SessionEnd::Closed(0) => Status::Done,
            SessionEnd::Exited(_) | SessionEnd::Closed(_) => Status::Faulty,
            SessionEnd::Faulty(_) | SessionEnd::ReadFault | SessionEnd::TooLong => Status::Refused,
            SessionEnd::WriteFault => Status::WriteFault,
            SessionEnd::NoMemory => Status::NoMemory,
        }
    }
}
