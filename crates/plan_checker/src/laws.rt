//! What certificates show, over all graphs: each law is the contract of a function that does nothing.

ghost use Rattle.plan_checker.specs.Laws.{AreLimited, CertificatesAreCheapest, CertificatesBreakNothing, ChargesBoundCosts, EachHasLeast, LeastIsOne, OneBadLineIsFirst, TextsTellCertificates};

/// Fair charges are worth no more than any valid plan costs.
pub fn charges_bound_costs()
    ensures { ChargesBoundCosts }
{}

/// The plan of a certificate is a cheapest one.
pub fn certificates_are_cheapest()
    ensures { CertificatesAreCheapest }
{}

/// A graph has at most one Least plan.
pub fn least_is_one()
    ensures { LeastIsOne }
{}

/// Each graph has a Least plan.
pub fn each_has_least()
    ensures { EachHasLeast }
{}

/// No rule is broken by a certificate.
pub fn certificates_break_nothing()
    ensures { CertificatesBreakNothing }
{}

/// A text is that of at most one certificate, and the text of one has no bad line: what was written is read back.
pub fn texts_tell_certificates()
    ensures { TextsTellCertificates }
{}

/// A text has at most one first bad line.
pub fn one_bad_line_is_first()
    ensures { OneBadLineIsFirst }
{}

/// A graph has at most 16,384 vertices and 262,144 entries of parents, and a cost is at most 10^12.
pub fn graphs_are_limited()
    ensures { AreLimited }
{}
