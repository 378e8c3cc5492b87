//! What a certificate says of the nodes that a pass of one shard kept, and that the certificate of an exhausted pass shows its
//! claim. And when the check of any certificate tells a fault. There is no code: each public function is a law, and its contract
//! is what is proved.
#![tactic(auto)]

ghost use Rattle.cert_rows.specs.Faults.{ClaimFaultTold, FaultHasList, FaultIsMet, NodeFaultTold, TargetFaultTold};
ghost use Rattle.cert_rows.specs.Laws.{LawCut, LawLayers, LawRows, LawTarget};

/// The certificate whose nodes are those that a pass of one shard kept.
///
/// `rows`: where the pass is exhausted, the certificate shows its claim. `target`: one without layers does, where the target is
/// not allowed, or is base and no better than the claim. `cut`: one with the target's node alone, which is cut, does where the
/// target's floor is no better than the claim. `layers`: what is written of kept nodes are the layers of a certificate.
pub fn law_rows()
    ensures rows { LawRows }
    ensures target { LawTarget }
    ensures cut { LawCut }
    ensures layers { LawLayers }
{}

/// When the check of a certificate tells a fault.
///
/// `has_list`: where it does, some list of the model meets one. `met`: which list: at the first line the empty one; at the line
/// of the claim a front of the claimed one; at the line of a node a front of its list, or that list with one step more.
/// `target_told`, `claim_told`, `node_told`: where the target, the claimed list or the list of a node meets one that decides, and
/// all before its line is right, a fault is told at that line.
pub fn law_faults()
    ensures has_list { FaultHasList }
    ensures met { FaultIsMet }
    ensures target_told { TargetFaultTold }
    ensures claim_told { ClaimFaultTold }
    ensures node_told { NodeFaultTold }
{}
