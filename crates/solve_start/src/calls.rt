//! A call under the law of costs that a model names.

/// Calls a function with the law of costs of the model as its first type argument: `by_law!(model, run(x))`, or with the others behind
/// it, `by_law!(model, run::<R, G>(x))`. The crate that calls it stands on `cost_laws` and `dp_model`.
#[macro_export]
macro_rules! by_law {
    ($model:ident, $run:ident $(::<$($other:ident),*>)? ($($argument:expr),*)) => {
        match ($model.minimize(), $model.join()) {
            (true, dp_model::JoinOp::Plus) => $run::<cost_laws::MinPlus $($(, $other)*)?>($($argument),*),
            (true, dp_model::JoinOp::Most) => $run::<cost_laws::MinMost $($(, $other)*)?>($($argument),*),
            (true, dp_model::JoinOp::Least) => $run::<cost_laws::MinLeast $($(, $other)*)?>($($argument),*),
            (false, dp_model::JoinOp::Plus) => $run::<cost_laws::MaxPlus $($(, $other)*)?>($($argument),*),
            (false, dp_model::JoinOp::Most) => $run::<cost_laws::MaxMost $($(, $other)*)?>($($argument),*),
            (false, dp_model::JoinOp::Least) => $run::<cost_laws::MaxLeast $($(, $other)*)?>($($argument),*),
        }
    };
}
