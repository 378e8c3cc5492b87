//! Laws of certificates, as functions without a body.

ghost use Rattle.cert_laws.specs.InParts.{PartsShow, WholeShows};
ghost use Rattle.cert_laws.specs.Laws.{LawShown};
ghost use Rattle.cert_laws.specs.PartChecks.{FirstOfParts, PartNoFails, PartYesShows, WholeChecks};
ghost use Rattle.cert_laws.specs.Told.{NoFails, YesShows};

/// Where a certificate shows its claim, and the model is honest or pruning is off, the claim is true: no legal list is better
/// than the claimed one, or there is no legal list. Nothing is asked of who made the certificate.
pub fn law_shown()
    ensures { LawShown }
{}

/// What the check of a certificate tells: yes exactly where it shows its claim; or the first line, in the order of the text, at
/// which a clause fails, and why.
pub fn law_checked()
    ensures yes { YesShows }
    ensures no { NoFails }
{}

/// A certificate shows its claim exactly where it does so in each of so many parts. The one part of one is the whole. So a check may be
/// shared, as over machines.
pub fn law_parts()
    ensures parts { PartsShow }
    ensures whole { WholeShows }
{}

/// What the check of a part tells: yes exactly where the certificate shows its claim in the part; or the first line, in the order of the
/// text, at which a clause fails in the part, and why. The first line that the checks of all parts reject is that of the whole.
pub fn law_checked_in_part()
    ensures yes { PartYesShows }
    ensures no { PartNoFails }
    ensures first { FirstOfParts }
    ensures whole { WholeChecks }
{}
