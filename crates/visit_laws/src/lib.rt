//! Laws of what is evaluated in a state: what the crates that look at states and make their successors find is what a
//! model means. There is no code: each public function is a law, and its contract is what is proved.
#![tactic(auto)]

ghost use Rattle.visit_laws.specs.Constraints.{AllowedFound, ConstraintFaults, ConstraintMet, ForbiddenFound};
ghost use Rattle.visit_laws.specs.BaseCases.{BaseCostMet, BaseFaults, BaseFound, ConditionMet, InnerFound};
ghost use Rattle.visit_laws.specs.Looks.{BoundMet, FloorFaults, FloorFound, LookFaults, LookedBase, LookedForbidden, LookedOpen};
ghost use Rattle.visit_laws.specs.Transitions.{AllConsidered, BeforeFaults, BeforeFound, BeforeNone, EnabledFaults, EnabledFound, ForcedAlone, ForcedFaults, ForcedFound, ForcedListed, MayNotStep, MayStepFaults, MayStepFound, NoneForced, OthersListed, PreconditionMet};
ghost use Rattle.visit_laws.specs.Steps.{CostFaults, CostFound, CostMet, EffectFaults, EffectMet, NextFound, StepFound, StepMade, WeightMet};
ghost use Rattle.visit_laws.specs.Starts.{StartBase, StartFaults, StartForbidden, StartOpen};
ghost use Rattle.visit_laws.specs.Visits.{BatchFound, FatesExclude, FatesFound, FirstFound, NoFaultPassed, OneFault, VisitFaults};

/// What is found of the constraints of a state: whether it is allowed, or the first fault, which is the one that is met
/// there.
pub fn law_constraints()
    ensures allowed { AllowedFound }
    ensures forbidden { ForbiddenFound }
    ensures faults { ConstraintFaults }
    ensures met { ConstraintMet }
{}

/// What is found of the base cases of a state: its base cost, that it is inner, or the first fault, which is the one that
/// is met there.
pub fn law_base_cases()
    ensures base { BaseFound }
    ensures inner { InnerFound }
    ensures faults { BaseFaults }
    ensures condition_met { ConditionMet }
    ensures cost_met { BaseCostMet }
{}

/// What is found of the floor of a state, or the first fault of its dual bounds, which is the one that is met there.
pub fn law_floors()
    ensures floor { FloorFound }
    ensures faults { FloorFaults }
    ensures met { BoundMet }
{}

/// What a state is found to be: forbidden, base with its cost, inner with its floor, or the first fault, which is the one
/// that is met there.
pub fn law_looks()
    ensures forbidden { LookedForbidden }
    ensures base { LookedBase }
    ensures open_inner { LookedOpen }
    ensures faults { LookFaults }
{}

/// What the target is found to be: forbidden, base with its cost, inner with its node, or the first fault, which is the one
/// that is met there.
pub fn law_starts()
    ensures forbidden { StartForbidden }
    ensures base { StartBase }
    ensures open_inner { StartOpen }
    ensures faults { StartFaults }
{}

/// What is found of a transition in a state: whether it is enabled, whether it is considered and enabled, or the first
/// fault, which is the one that is met there.
pub fn law_transitions()
    ensures enabled { EnabledFound }
    ensures enabled_faults { EnabledFaults }
    ensures may_step { MayStepFound }
    ensures may_not { MayNotStep }
    ensures faults { MayStepFaults }
    ensures met { PreconditionMet }
{}

/// The lists of the forced transitions and of the others: each has exactly these, in ascending order.
pub fn law_lists()
    ensures forced { ForcedListed }
    ensures others { OthersListed }
{}

/// What is found of the forced transitions in a state: the one that is considered alone, that there is none, or the first
/// fault.
pub fn law_forced()
    ensures found { ForcedFound }
    ensures alone { ForcedAlone }
    ensures none { NoneForced }
    ensures others { AllConsidered }
    ensures faults { ForcedFaults }
{}

/// What is found of the forced transitions that are tested before a transition: one that is considered and enabled, that
/// there is none, so that the transition is considered, or the first fault.
pub fn law_before()
    ensures found { BeforeFound }
    ensures none { BeforeNone }
    ensures faults { BeforeFaults }
{}

/// What is found of the cost so far and of the state that a transition leads to: both make a step, or the first fault,
/// which is the one that is met.
pub fn law_steps()
    ensures cost { CostFound }
    ensures next { NextFound }
    ensures step { StepFound }
    ensures made { StepMade }
    ensures cost_faults { CostFaults }
    ensures effect_faults { EffectFaults }
    ensures weight_met { WeightMet }
    ensures cost_met { CostMet }
    ensures effect_met { EffectMet }
{}

/// What is found of a visit: the fate of each transition that is considered and enabled, or the first fault. Where a batch
/// is found, no fault is met.
pub fn law_visits()
    ensures fates { FatesFound }
    ensures exclude { FatesExclude }
    ensures batch { BatchFound }
    ensures faults { VisitFaults }
    ensures first { FirstFound }
    ensures one { OneFault }
    ensures none_passed { NoFaultPassed }
{}
