// Faults of the parts of a call, as refusals.
ghost use Rattle.refusals.specs.Line.{no_names};
ghost use Rattle.refusals.specs.Refusals.{IsToldOr, source_status, ParseRefusal, TypeRefusal, DataRefusal};

use crate::answer::Refusal;
use crate::status::{OverflowAt, Status};
use bound_file::DeclFault;
use cost_free::Meter;
use price_file::{PriceFault, fault_line};
use raml_parse::ParseFault;
use refusal_text::{
    Analysed, SourceFault, data_line, declared_leaves_line, declared_too_large_line,
    other_source_line, point_line, source_line,
};
use simple_types::TypeFault;
use std::alloc::Global;
use value_text::DataFault;

/// A fault of the parser.
pub fn parse_refusal(alloc: Global, whose: Analysed, fault: ParseFault) -> Refusal
    ensures { ParseRefusal whose fault result }
{
    match fault {
        ParseFault::NoMemory => Refusal::no_memory(),
        fault => source_refusal(alloc, whose, SourceFault::Parse(fault)),
    }
}

/// A fault of types.
pub fn type_refusal(alloc: Global, whose: Analysed, fault: TypeFault) -> Refusal
    ensures { TypeRefusal whose fault result }
{
    match fault {
        TypeFault::NoMemory => Refusal::no_memory(),
        fault => source_refusal(alloc, whose, SourceFault::Type(fault)),
    }
}

fn source_refusal(alloc: Global, whose: Analysed, fault: SourceFault) -> Refusal
    ensures { IsToldOr no_names (source_status whose fault) result }
{
    match whose {
        Analysed::Program => own_source_refusal(alloc, fault),
        Analysed::Other => other_source_refusal(alloc, fault),
    }
}

fn own_source_refusal(alloc: Global, fault: SourceFault) -> Refusal
    ensures { IsToldOr no_names (Status.Source fault) result }
{
    let line = source_line(alloc, &fault);
    Refusal::told(Status::Source(fault), line)
}

fn other_source_refusal(alloc: Global, fault: SourceFault) -> Refusal
    ensures { IsToldOr no_names (Status.OtherSource fault) result }
{
    let line = other_source_line(alloc, &fault);
    Refusal::told(Status::OtherSource(fault), line)
}

/// A fault of a table of prices.
pub fn price_refusal(alloc: Global, fault: PriceFault) -> Refusal
    ensures { IsToldOr no_names (Status.Prices fault) result }
{
    let line = fault_line(alloc, fault);
    Refusal::told(Status::Prices(fault), line)
}

/// A fault of a file of declared bounds.
pub fn bounds_refusal(alloc: Global, fault: DeclFault) -> Refusal
    ensures { IsToldOr no_names (Status.Declared fault) result }
{
    let line = bound_file::fault_line(alloc, fault);
    Refusal::told(Status::Declared(fault), line)
}

/// The system of the declared bound on this line has too many rows.
pub fn declared_too_large(alloc: Global, line: u32) -> Refusal
    ensures { IsToldOr no_names (Status.LineTooLarge line) result }
{
    let text = declared_too_large_line(alloc, line);
    Refusal::told(Status::LineTooLarge { line }, text)
}

/// A number leaves its range where the declared bound on this line is decided.
pub fn declared_leaves(alloc: Global, line: u32) -> Refusal
    ensures { IsToldOr no_names (Status.Overflow (OverflowAt.DeclaredBound line)) result }
{
    let text = declared_leaves_line(alloc, line);
    Refusal::told(Status::Overflow(OverflowAt::DeclaredBound { line }), text)
}

/// A fault of data.
pub fn data_refusal(alloc: Global, fault: DataFault) -> Refusal
    ensures { DataRefusal fault result }
{
    match fault {
        DataFault::NoMemory => Refusal::no_memory(),
        fault => {
            let line = data_line(alloc, fault);
            Refusal::told(Status::Data(fault), line)
        }
    }
}

/// A bound that leaves 128 bits at the data.
pub fn point_refusal(alloc: Global, meter: Meter) -> Refusal
    ensures { IsToldOr no_names (Status.Overflow (OverflowAt.Point meter)) result }
{
    let line = point_line(alloc, meter);
    Refusal::told(Status::Overflow(OverflowAt::Point { meter }), line)
}
