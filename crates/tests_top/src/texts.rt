//! Texts of a tour with time windows and of a climb, and what runs print.

/// A tour through customers, each of whom is to be visited within a time.
pub(crate) const TOUR: &str = concat!(
    "domain: tsptw\ncost_type: integer\nreduce: min\nobjects:\n  - customer\nstate_variables:\n  - name: unvisited\n",
    "    type: set\n    object: customer\n  - name: location\n    type: element\n    object: customer\n  - name: time\n",
    "    type: integer\n    preference: less\ntables:\n  - { name: ready, type: integer, args: [ customer ] }\n",
    "  - { name: due, type: integer, args: [ customer ] }\n  - { name: min_to, type: integer, args: [ customer ] }\n",
    "  - name: distance\n    type: integer\n    args: [ customer, customer ]\n    default: 0\ntransitions:\n",
    "  - name: visit\n    parameters:\n      - name: to\n        object: unvisited\n    preconditions:\n",
    "      - (<= (+ time (distance location to)) (due to))\n    effects:\n      unvisited: (remove to unvisited)\n",
    "      location: to\n      time: (max (+ time (distance location to)) (ready to))\n",
    "    cost: (+ cost (distance location to))\n  - name: return\n    preconditions:\n      - (is_empty unvisited)\n",
    "      - (!= location 0)\n    effects:\n      location: 0\n      time: (+ time (distance location 0))\n",
    "    cost: (+ cost (distance location 0))\nconstraints:\n  - condition: (<= (+ time (distance location j)) (due j))\n",
    "    forall:\n      - name: j\n        object: unvisited\nbase_cases:\n  - - (is_empty unvisited)\n",
    "    - (= location 0)\ndual_bounds:\n  - (+ (sum min_to unvisited)\n       (if (= location 0) 0 (min_to 0)))\n",
);

/// The problem of four customers.
pub(crate) const TOUR_OF_FOUR: &str = concat!(
    "domain: tsptw\nproblem: four\nobject_numbers:\n  customer: 4\ntarget:\n  unvisited: [ 1, 2, 3 ]\n  location: 0\n",
    "  time: 0\ntable_values:\n  ready: { 0: 0, 1: 5, 2: 0, 3: 8 }\n  due: { 0: 100, 1: 16, 2: 10, 3: 14 }\n",
    "  min_to: { 0: 3, 1: 3, 2: 3, 3: 3 }\n  distance:\n    {\n      [0, 1]: 3, [0, 2]: 4, [0, 3]: 5,\n",
    "      [1, 0]: 3, [1, 2]: 5, [1, 3]: 4,\n      [2, 0]: 4, [2, 1]: 5, [2, 3]: 3,\n",
    "      [3, 0]: 5, [3, 1]: 4, [3, 2]: 3,\n    }\n",
);

/// The best tour.
pub(crate) const TOUR_STEPS: &str = "visit 2\nvisit 3\nvisit 1\nreturn\n";

/// What a search of the tour prints.
pub(crate) const TOUR_FOUND: &str = concat!(
    "solution 16 4\nvisit 1\nvisit 2\nvisit 3\nreturn\npass 1 share 1 visited 4 dropped 1\nsolution 14 4\nvisit 2\n",
    "visit 3\nvisit 1\nreturn\npass 2 share 2 visited 6 dropped 1\npass 3 share 4 visited 4 dropped 0\nverdict optimal 14\n",
);

/// A jump, and a climb of three steps that costs less and is found later.
pub(crate) const CLIMB: &str = concat!(
    "domain: a\nstate_variables:\n  - name: x\n    type: integer\ntransitions:\n",
    "  - name: inc\n    preconditions:\n      - (< x 3)\n    effects:\n      x: (+ x 1)\n    cost: (+ cost 2)\n",
    "  - name: jump\n    preconditions:\n      - (= x 0)\n    effects:\n      x: 3\n    cost: (+ cost 7)\n",
    "base_cases:\n  - - (= x 3)\n",
);

/// The problem that starts below.
pub(crate) const FROM_BELOW: &str = "domain: a\nproblem: one\ntarget:\n  x: 0\n";

/// What is shown of the tour.
pub(crate) const TOUR_SHOWN: &str = concat!(
    "domain tsptw\nproblem four\nreduce min join plus\nobject customer 4\nvariable unvisited set customer without\n",
    "variable location element customer without\nvariable time integer less\ntable ready 4\ntable due 4\ntable min_to 4\n",
    "table distance 16\ntransition visit 4\ntransition return 1\nground 5\nconstraints 1\nbases 1\nbounds 1\n",
);
