//! The answers, and their exit statuses.
ghost use Rattle.std.specs.Prelude.{◌≡◌};
ghost use Rattle.solve.specs.Answers.{status_by, checker_status, expected_status, solver_status};

use lrup_model::Lit;

/// What a run says about a formula and assumed literals.
#[derive(Debug, Drop)]
pub enum Answer {
    /// No assignment satisfies the formula.
    Unsatisfiable,
    /// No assignment satisfies the formula and makes all assumed literals true.
    UnsatisfiableUnder,
    /// Every assignment that makes these literals true satisfies the formula and makes all assumed
    /// literals true, and there is such an assignment.
    Satisfiable(Vec<Lit>),
    /// Nothing was found out.
    Unknown,
}

/// What the exit status of a run says.
#[derive(Clone, Copy, Debug, PartialEq, Eq)]
pub enum Statuses {
    /// As SAT solvers: 20 for 'unsatisfiable', also under assumptions, 10 for 'satisfiable', and 0
    /// for 'unknown'.
    OfSolver,
    /// As `lrupd`: 0 for 'unsatisfiable', 8 for 'unsatisfiable under assumptions', and 3 for any
    /// other answer.
    OfChecker,
    /// 0 for this answer, and 1 for any other.
    Expect(Expected),
}

/// An answer that a user may expect.
#[derive(Clone, Copy, Debug, PartialEq, Eq)]
pub enum Expected {
    Unsatisfiable,
    UnsatisfiableUnder,
    Satisfiable,
}

impl Answer {
    /// The exit status of a run that has printed this answer.
    pub fn status(&self, statuses: Statuses) -> u8
        ensures { result ≡ status_by statuses self.now }
    {
        match statuses {
            Statuses::OfSolver => self.solver_status(),
            Statuses::OfChecker => self.checker_status(),
            Statuses::Expect(expected) => self.expected_status(expected),
        }
    }

    fn solver_status(&self) -> u8
        ensures { result ≡ solver_status self.now }
    {
        match self {
            Answer::Unsatisfiable => 20,
            Answer::UnsatisfiableUnder => 20,
            Answer::Satisfiable(_) => 10,
            Answer::Unknown => 0,
        }
    }

    fn checker_status(&self) -> u8
        ensures { result ≡ checker_status self.now }
    {
        match self {
            Answer::Unsatisfiable => 0,
            Answer::UnsatisfiableUnder => 8,
            Answer::Satisfiable(_) => 3,
            Answer::Unknown => 3,
        }
    }

    fn expected_status(&self, expected: Expected) -> u8
        ensures { result ≡ expected_status expected self.now }
    {
        match expected {
            Expected::Unsatisfiable => match self {
                Answer::Unsatisfiable => 0,
                Answer::UnsatisfiableUnder => 1,
                Answer::Satisfiable(_) => 1,
                Answer::Unknown => 1,
            },
            Expected::UnsatisfiableUnder => match self {
                Answer::Unsatisfiable => 1,
                Answer::UnsatisfiableUnder => 0,
                Answer::Satisfiable(_) => 1,
                Answer::Unknown => 1,
            },
            Expected::Satisfiable => match self {
                Answer::Unsatisfiable => 1,
                Answer::UnsatisfiableUnder => 1,
                Answer::Satisfiable(_) => 0,
                Answer::Unknown => 1,
            },
        }
    }
}
