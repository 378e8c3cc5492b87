//! The printed lines, as they are read by others.

use crate::growth::two_ways;
use dp_base::{Place, Seq};
use dp_model::{FaultAt, FaultKind, Found, Reason, Spot, Verdict};
use dp_outside::FineSink;
use solve_report::{put_pass, put_refusal, put_solution, put_verdict};
use std::alloc::{AllocError, Global};
use std::test::Fail;

/// What a fault is, where it stands, and how its verdict reads up to the steps.
static FAULTS: [(FaultKind, Spot, &str); 10] = [
    (
        FaultKind::Range,
        Spot::Constraint(0),
        "verdict fault Range at constraint 1 after 2\nq\nd\n",
    ),
    (
        FaultKind::ZeroDivisor,
        Spot::BaseCondition(0, 1),
        "verdict fault ZeroDivisor at base 1 condition 2 after 2\nq\nd\n",
    ),
    (
        FaultKind::Negative,
        Spot::BaseCost(2),
        "verdict fault Negative at base 3 cost after 2\nq\nd\n",
    ),
    (
        FaultKind::Index,
        Spot::Total,
        "verdict fault Index at total after 2\nq\nd\n",
    ),
    (
        FaultKind::Range,
        Spot::Bound(4_294_967_295),
        "verdict fault Range at bound 4294967296 after 2\nq\nd\n",
    ),
    (
        FaultKind::Range,
        Spot::Precondition(0, 3),
        "verdict fault Range at p precondition 4 after 2\nq\nd\n",
    ),
    (
        FaultKind::Range,
        Spot::Weight(1),
        "verdict fault Range at q weight after 2\nq\nd\n",
    ),
    (
        FaultKind::Range,
        Spot::Cost(2),
        "verdict fault Range at e cost after 2\nq\nd\n",
    ),
    (
        FaultKind::Range,
        Spot::Effect(3, 0),
        "verdict fault Range at d effect a after 2\nq\nd\n",
    ),
    (
        FaultKind::Range,
        Spot::Cost(9),
        "verdict fault Range at  cost after 2\nq\nd\n",
    ),
];

#[test]
fn writes_faults(rt: HostRuntime) -> Result<(), Fail> {
    let model = two_ways(rt.alloc())?;
    for (kind, spot, want) in FAULTS.iter() {
        let steps = Seq::of([1u32, 3].to_vec(rt.alloc())?);
        let verdict = Verdict::Fault(FaultAt {
            steps,
            spot: *spot,
            kind: *kind,
        });
        let mut sink = FineSink::new(rt.alloc());
        put_verdict(&mut sink, &model, &verdict)?;
        assert!(rt; sink.bytes() == Some(want.as_bytes()), "{want}");
    }
    Ok(())
}

fn verdicts(alloc: Global) -> Result<Vec<Verdict>, AllocError> {
    Ok(vec![in alloc;
        Verdict::Optimal(-1029),
        Verdict::Infeasible,
        Verdict::Stopped(u64::MAX),
        Verdict::Legal(0),
        Verdict::Illegal(0, Reason::NotAllowed),
        Verdict::Illegal(1, Reason::AfterBase),
        Verdict::Illegal(2, Reason::NotBase),
        Verdict::Illegal(3, Reason::Forced),
        Verdict::Illegal(4, Reason::NotEnabled),
    ]?)
}

const VERDICT_LINES: &str = "\
verdict optimal -1029
verdict infeasible
verdict stopped 18446744073709551615
verdict legal 0
verdict illegal 0 NotAllowed
verdict illegal 1 AfterBase
verdict illegal 2 NotBase
verdict illegal 3 Forced
verdict illegal 4 NotEnabled
";

#[test]
fn writes_other_verdicts(rt: HostRuntime) -> Result<(), Fail> {
    let model = two_ways(rt.alloc())?;
    let verdicts = verdicts(rt.alloc())?;
    let mut sink = FineSink::new(rt.alloc());
    for verdict in verdicts.iter() {
        put_verdict(&mut sink, &model, verdict)?;
    }
    assert!(rt; sink.bytes() == Some(VERDICT_LINES.as_bytes()));
    Ok(())
}

const SOLUTION_LINES: &str = "\
solution -9223372036854775808 3
q

d
";

#[test]
fn writes_a_solution(rt: HostRuntime) -> Result<(), Fail> {
    let model = two_ways(rt.alloc())?;
    let found = Found {
        cost: i64::MIN,
        steps: Seq::of([1u32, 4, 3].to_vec(rt.alloc())?),
    };
    let mut sink = FineSink::new(rt.alloc());
    put_solution(&mut sink, &model, &found)?;
    assert!(rt; sink.bytes() == Some(SOLUTION_LINES.as_bytes()));
    Ok(())
}

const PASS_LINE: &str = "pass 4294967295 share 18446744073709551615 visited 3 dropped 12\n";

#[test]
fn writes_a_pass(rt: HostRuntime) -> Result<(), Fail> {
    let mut sink = FineSink::new(rt.alloc());
    put_pass(&mut sink, u32::MAX, u64::MAX, 3, 12)?;
    assert!(rt; sink.bytes() == Some(PASS_LINE.as_bytes()));
    Ok(())
}

/// Refusals: a number, an offset, and how the line reads for line 10, column 3 of the problem.
static REFUSALS: [(u8, Option<u32>, &str); 35] = [
    (10, None, "refused problem:10:3 10 NotUtf8\n"),
    (11, None, "refused problem:10:3 11 TabIndent\n"),
    (13, None, "refused problem:10:3 13 BadQuote\n"),
    (14, None, "refused problem:10:3 14 Unread\n"),
    (15, None, "refused problem:10:3 15 TwiceKey\n"),
    (16, None, "refused problem:10:3 16 TooDeep\n"),
    (17, None, "refused problem:10:3 17 OutOfProfile\n"),
    (20, None, "refused problem:10:3 20 BadToken\n"),
    (21, None, "refused problem:10:3 21 Unbalanced\n"),
    (22, None, "refused problem:10:3 22 Empty\n"),
    (23, None, "refused problem:10:3 23 Rest\n"),
    (24, None, "refused problem:10:3 24 TooNested\n"),
    (30, None, "refused problem:10:3 30 UnknownName\n"),
    (31, None, "refused problem:10:3 31 WrongKind\n"),
    (32, None, "refused problem:10:3 32 WrongCount\n"),
    (33, None, "refused problem:10:3 33 CostPlace\n"),
    (34, None, "refused problem:10:3 34 Continuous\n"),
    (35, None, "refused problem:10:3 35 TooMany\n"),
    (40, None, "refused problem:10:3 40 MissingKey\n"),
    (41, None, "refused problem:10:3 41 UnknownKey\n"),
    (42, None, "refused problem:10:3 42 BadNumber\n"),
    (43, None, "refused problem:10:3 43 TwiceName\n"),
    (44, None, "refused problem:10:3 44 BadIndex\n"),
    (45, None, "refused problem:10:3 45 BadTarget\n"),
    (46, None, "refused problem:10:3 46 MixedCost\n"),
    (47, None, "refused problem:10:3 47 CostForm\n"),
    (48, None, "refused problem:10:3 48 NoBase\n"),
    (49, None, "refused problem:10:3 49 TooMany\n"),
    (50, None, "refused problem:10:3 50 WrongShape\n"),
    (51, None, "refused problem:10:3 51 BadName\n"),
    (52, None, "refused problem:10:3 52 LeftOut\n"),
    (70, None, "refused problem:10:3 70 UnknownStep\n"),
    (71, None, "refused problem:10:3 71 BadArguments\n"),
    (30, Some(0), "refused problem:10:3+0 30 UnknownName\n"),
    (
        31,
        Some(4_294_967_295),
        "refused problem:10:3+4294967295 31 WrongKind\n",
    ),
];

#[test]
fn writes_refusals(rt: HostRuntime) -> Result<(), Fail> {
    let place = Place {
        file: 2,
        line: 10,
        column: 3,
    };
    for (number, offset, want) in REFUSALS.iter() {
        let mut sink = FineSink::new(rt.alloc());
        put_refusal(&mut sink, place, *offset, *number)?;
        assert!(rt; sink.bytes() == Some(want.as_bytes()), "{want}");
    }
    Ok(())
}
