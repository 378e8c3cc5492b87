//! Laws of the texts that the program prints: what they tell, and that what is printed with a certificate is certified.
#![tactic(auto)]

ghost use Rattle.text_laws.specs.BestRuns.{LawReadRun, LawRunOf, LawRunsToldApart};
ghost use Rattle.text_laws.specs.Certified.{LawCertifiedBack};
ghost use Rattle.text_laws.specs.Records.{LawLineNames, LawReadRecord, LawRecordOf, LawToldApart};

/// The names of the variables of a loaded model are lines.
pub fn law_line_names()
    ensures { LawLineNames }
{}

/// What a search by passes came to, that words ask for, has a record of a search, and what one of the best node first came to has a run of
/// a search: their laws ask for no more than the clauses of `solve_top::run` give, and a text of fewer than 2^64 bytes.
pub fn law_record_of()
    ensures passes { LawRecordOf }
    ensures best { LawRunOf }
{}

/// A record of a search is read back from its text, line by line: a line `solution`, or one of a fault, owns as many lines of steps as it
/// tells, whatever they look like.
pub fn law_read_record()
    ensures { LawReadRecord }
{}

/// Two records of searches with one text are the same, but of a fault's spot it is the text that is the same.
pub fn law_told_apart()
    ensures { LawToldApart }
{}

/// So is a run of the best node first.
pub fn law_read_run()
    ensures { LawReadRun }
{}

/// Two runs of the best node first with one text are the same, but of a fault's spot it is the text that is the same.
pub fn law_runs_told_apart()
    ensures { LawRunsToldApart }
{}

/// Where a search printed a whole certificate, a check of all that it printed, over the same domain and problem, tells that its claim is
/// certified; or a read failed, or memory ran out.
pub fn law_certified_back()
    ensures { LawCertifiedBack }
{}
