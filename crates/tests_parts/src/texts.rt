//! The texts of the model that tests run on.

/// Two ways, of which the first that is found costs more.
pub const TWO_WAYS: &str = concat!(
    "domain: b\nstate_variables:\n  - name: a\n    type: integer\ntransitions:\n",
    "  - name: p\n    preconditions:\n      - (= a 0)\n    effects:\n      a: 1\n    cost: (+ cost 1)\n",
    "  - name: q\n    preconditions:\n      - (= a 0)\n    effects:\n      a: 2\n    cost: (+ cost 2)\n",
    "  - name: e\n    preconditions:\n      - (= a 1)\n    effects:\n      a: 3\n    cost: (+ cost 10)\n",
    "  - name: d\n    preconditions:\n      - (= a 2)\n    effects:\n      a: 3\n    cost: (+ cost 1)\n",
    "base_cases:\n  - - (= a 3)\n",
);

/// The problem that starts at 0.
pub const FROM_ZERO: &str = "domain: b\nproblem: one\ntarget:\n  a: 0\n";
