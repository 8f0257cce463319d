// How a call ends.
ghost use Rattle.std.specs.Prelude.{◌≡◌};
ghost use Rattle.refusals.specs.Ending.{code_of};

use bound_file::DeclFault;
use bound_infer::{InferFault, LeavesAt};
use cert_check::CertFault;
use cert_json::JsonFault;
use constraint_gen::What;
use cost_free::{Meter, Task};
use price_file::PriceFault;
use raml_syntax::FunId;
use refusal_text::{SourceFault, Which};
use value_text::DataFault;

/// Why a certificate is refused. No fault in it is want of memory.
#[derive(Drop)]
pub enum CertAnswer {
    /// Its text is of no certificate.
    Json(JsonFault),
    /// It is not one of the program: the first fault of its shape or of the conditions of the rules.
    Check(CertFault),
    /// The vector of this refuted block does not refute its task.
    NotRefuted { block: usize },
}

/// Where a number leaves its range.
#[derive(Drop)]
pub enum OverflowAt {
    /// In the analysis, or in the check of a certificate.
    At(LeavesAt),
    /// In the bound on this meter, at the data.
    Point { meter: Meter },
    /// In the power form of the function's bound on this meter.
    Powers { fun: FunId, meter: Meter },
    /// Where the declared bound on this line of its file is decided.
    DeclaredBound { line: u32 },
}

/// How a call ends.
#[derive(Drop)]
pub enum Status {
    /// The report is written whole.
    Done,
    /// The words are refused.
    Usage,
    /// The store failed to read the file.
    ReadFault { which: Which },
    /// The file has too many bytes.
    TooLong { which: Which },
    /// The source is refused. The fault is no want of memory.
    Source(SourceFault),
    /// The data is refused. The fault is no want of memory.
    Data(DataFault),
    /// The program has no function of the name.
    NoFunction,
    /// The certificate is refused.
    Certificate(CertAnswer),
    /// Of this task there are more than 2000 indices, unknowns or rows.
    TooLarge { task: Task, what: What },
    /// A number leaves its range.
    Overflow(OverflowAt),
    /// The report is written whole: the machine has not halted within its instructions.
    Stopped,
    /// The report is written whole: the machine asks for a cell where all are taken.
    HeapFull,
    /// A front of the report is written: the rest was refused.
    WriteFault,
    /// The table of prices is refused.
    Prices(PriceFault),
    /// The file of declared bounds is refused.
    Declared(DeclFault),
    /// With the rows of the declared bound on this line of its file, a system has more than 2000 rows.
    LineTooLarge { line: u32 },
    /// The source of the program to compare with is refused. The fault is no want of memory.
    OtherSource(SourceFault),
    /// Its analysis is refused. The fault is no want of memory.
    OtherFault(InferFault),
    /// Memory ran out, and nothing of the report is written.
    NoMemory,
}

impl Status {
    /// The number that the program ends with.
    pub fn code(&self) -> u8
        ensures { result ≡ code_of self.now }
    {
        match self {
            Status::Done => 0,
            Status::Usage => 1,
            Status::ReadFault { .. } => 2,
            Status::TooLong { .. } => 3,
            Status::Source(_) => 4,
            Status::Data(_) => 5,
            Status::NoFunction => 6,
            Status::Certificate(_) => 7,
            Status::TooLarge { .. } | Status::LineTooLarge { .. } => 8,
            Status::Overflow(_) => 9,
            Status::Stopped => 10,
            Status::HeapFull => 11,
            Status::WriteFault => 12,
            Status::Declared(_) => 14,
            Status::Prices(_) => 15,
            Status::OtherSource(_) => 16,
            Status::OtherFault(_) => 17,
            Status::NoMemory => 70,
        }
    }
}
