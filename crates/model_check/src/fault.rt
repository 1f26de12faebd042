//! Why a file isn't what it should be.
ghost use Rattle.std.specs.Prelude.{◌≡◌};

use dimacs::DimacsFault;
use lrup_text::CubeFault;
use std::alloc::AllocError;
use thiserror::Error;

/// Why a model's file was refused: its first fault in byte order. Lines are counted from 1.
#[derive(Clone, Copy, Debug, PartialEq, Eq, Error)]
pub enum ModelFault {
    /// This line has tokens, isn't a comment, and begins with another token than `v` or `s`.
    #[error("model refused: line {0} begins with neither v, s nor c")]
    OtherLine(u64),
    /// A token in this line isn't a number, or has a plus sign or a leading zero.
    #[error("model refused: bad number in line {0}")]
    BadNumber(u64),
    /// A number in this line has a magnitude above the formula's number of variables.
    #[error("model refused: variable out of range in line {0}")]
    VariableRange(u64),
    /// There is a token in this line after the 0 that ends the literals.
    #[error("model refused: literal after the 0 in line {0}")]
    AfterEnd(u64),
    /// No 0 ends the literals.
    #[error("model refused: no 0 at the end")]
    NoEnd,
    /// Memory was refused. The file may be a model's.
    #[error("out of memory")]
    Memory,
}

impl From<AllocError> for ModelFault {
    ghost use Rattle.model_check.specs.declared.fault.ModelFault.TheVariants.{Memory};

    ghost from_gives = { λ _ fault. fault ≡ Memory };

    fn from(_error: AllocError) -> ModelFault {
        ModelFault::Memory
    }
}

/// Why there is no answer.
#[derive(Clone, Copy, Debug, PartialEq, Eq, Error)]
pub enum CheckFault {
    /// The formula's file was refused; the cause is never `DimacsFault::Memory`.
    #[error("{0}")]
    Formula(DimacsFault),
    /// The file of the assumed literals was refused; the cause is never `CubeFault::Memory`.
    #[error("assumptions refused: {0}")]
    Assumptions(CubeFault),
    /// The model's file was refused; the cause is never `ModelFault::Memory`.
    #[error("{0}")]
    Model(ModelFault),
    /// Memory was refused. Nothing is known of the files.
    #[error("out of memory")]
    Memory,
}

impl From<AllocError> for CheckFault {
    ghost use Rattle.model_check.specs.declared.fault.CheckFault.TheVariants.{Memory};

    ghost from_gives = { λ _ fault. fault ≡ Memory };

    fn from(_error: AllocError) -> CheckFault {
        CheckFault::Memory
    }
}

impl From<DimacsFault> for CheckFault {
    ghost use Rattle.model_check.specs.FaultSources.{refused_formula};

    ghost from_gives = { λ refused fault. fault ≡ refused_formula refused };

    fn from(fault: DimacsFault) -> CheckFault {
        match fault {
            DimacsFault::Memory => CheckFault::Memory,
            _ => CheckFault::Formula(fault),
        }
    }
}

impl From<CubeFault> for CheckFault {
    ghost use Rattle.model_check.specs.FaultSources.{refused_assumptions};

    ghost from_gives = { λ refused fault. fault ≡ refused_assumptions refused };

    fn from(fault: CubeFault) -> CheckFault {
        match fault {
            CubeFault::Memory => CheckFault::Memory,
            _ => CheckFault::Assumptions(fault),
        }
    }
}

impl From<ModelFault> for CheckFault {
    ghost use Rattle.model_check.specs.FaultSources.{refused_model};

    ghost from_gives = { λ refused fault. fault ≡ refused_model refused };

    fn from(fault: ModelFault) -> CheckFault {
        match fault {
            ModelFault::Memory => CheckFault::Memory,
            _ => CheckFault::Model(fault),
        }
    }
}
