// Theorems of the report of a solve, at any scale of values `E`. Each function stands for one: its contract is the theorem.
#![tactic(auto)]

ghost use Rattle.rules.specs.Theorems.{OneReport, SomeReport, ReportGuarantees, ReportLightest, StraightHighest};

// A problem has exactly one report by a rule, unless a straight solve meets a cycle, and the stores then hold one content.
pub fn one_report<E>()
    ensures once { OneReport E }
    ensures some { SomeReport E }
{}

// A report guarantees its ceiling, its tree value and the weight of its removed links; that of a straight solve has the highest score.
pub fn report_guarantees<E>()
    ensures guarantees { ReportGuarantees E }
    ensures lightest { ReportLightest E }
    ensures highest { StraightHighest E }
{}
