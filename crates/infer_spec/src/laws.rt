// Laws of courses: each is the contract of a function that does nothing.
ghost use Rattle.infer_spec.specs.Clear.{FineIsClear, SeenIsFirst};
ghost use Rattle.infer_spec.specs.Laws.{CoursesAreGood, CoursesCertify, CoursesEnd, CoursesStayWithin, EndsOrStops, FoundIsLeast};
ghost use Rattle.infer_spec.specs.Laws.{FoundIsRefuted, NoneTooLarge, NoneUnrefuted, OneCertificate, OnePlace, RaisedRowsAreRefuted};
ghost use Rattle.infer_spec.specs.Laws.{RaisedStayGood, ScalesBegin};
ghost use Rattle.infer_spec.specs.Lines.{BlocksAreThere, LinesTell};

use simplex_spec::one_course;

/// Where the blocks of a meter and its scale are raised, blocks that were good stay so.
pub fn raised_stay_good()
    ensures { RaisedStayGood }
{}

/// The whole numbers that are read where pivots end stand for a block that holds and is least.
#[tactic(auto, using(crate::proofs::Certifying::found_is_least))]
pub fn found_is_least()
    ensures { FoundIsLeast }
{}

/// Those that are read where pivots rise refute the task.
pub fn found_is_refuted()
    ensures { FoundIsRefuted }
{}

/// Every block of a course is good at the scales that are then held.
#[tactic(auto, using(crate::proofs::Certifying::courses_are_good))]
pub fn courses_are_good()
    ensures { CoursesAreGood }
{}

/// The certificate of a course is valid, its solved blocks are least, and its refuted tasks are refuted.
pub fn courses_certify()
    ensures { CoursesCertify }
{}

/// At no place of a course's certificate does the schedule refuse to go on, and no task that is tried
/// exceeds a limit.
#[tactic(auto, using(crate::proofs::Certifying::courses_stay_within))]
pub fn courses_stay_within()
    ensures { CoursesStayWithin }
{}

/// No refuted block of a course's certificate exceeds a limit over the blocks before it.
pub fn none_too_large()
    ensures { NoneTooLarge }
{}

/// No vector of a valid certificate is refused.
pub fn none_unrefuted()
    ensures { NoneUnrefuted }
{}

/// A course ends in one certificate.
pub fn one_certificate()
    ensures { OneCertificate }
{
    one_course();
}

/// A course that ends comes to no place.
pub fn ends_or_stops()
    ensures { EndsOrStops }
{
    one_course();
}

/// The places to which a course comes are on one task and of one stage.
pub fn one_place()
    ensures { OnePlace }
{
    one_course();
}

/// A meter of which no block is solved has the scale 1.
#[tactic(auto, using(crate::proofs::Beginning::scales_begin))]
pub fn scales_begin()
    ensures { ScalesBegin }
{}

/// A course has no more blocks than there are tasks that may be tried.
#[tactic(auto, using(crate::proofs::Short::courses_end))]
pub fn courses_end()
    ensures { CoursesEnd }
{}

/// Where all that is computed for a task fits, no place comes on it.
#[tactic(auto, using(crate::proofs::Clear::fine_is_clear))]
pub fn fine_is_clear()
    ensures { FineIsClear }
{
    one_course();
}

/// A place that is seen after all that is tried before it was fine comes first.
#[tactic(auto, using(crate::proofs::Clear::seen_is_first))]
pub fn seen_is_first()
    ensures { SeenIsFirst }
{
    one_course();
}

/// A line of a held certificate that is no bound tells of a refuted task, or of one that waits.
pub fn lines_tell()
    ensures { LinesTell }
{}

/// A certificate that is held has a block for each meter and each group.
#[tactic(auto, using(crate::proofs::Present::blocks_are_there))]
pub fn blocks_are_there()
    ensures { BlocksAreThere }
{}

/// What refutes a system refutes it with its right sides raised.
pub fn raised_rows_are_refuted()
    ensures { RaisedRowsAreRefuted }
{}
