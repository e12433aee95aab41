// Plans that take values apart (compiler/destructuring_planner).
#![tactic(auto)]

ghost use Rattle.std.specs.Prelude.{◌≡◌};
ghost use Rattle.planner.specs.declared.PlanRefusal.TheVariants.{TableRefused};

pub mod buffer;
pub mod context;
pub mod destructuring;
pub mod entry_kind;
pub mod fields;
pub mod inner;
pub mod parameters;

use table::TableRefusal;

// A plan that is in the buffer: its form, its side and how many entries it has.
#[derive(Clone, Copy)]
pub struct Plan {
    pub form: u32,
    pub side: u32,
    pub entries: usize,
}

#[derive(Clone, Copy)]
pub enum PlanRefusal {
    TableRefused(TableRefusal),
    RootOutside,
    PlanTooLarge {
        needed: usize,
    },
    ColonEqualsRequiresBindableLeft {
        left: u32,
    },
    ArraySizeMismatch {
        left: u32,
        size: u32,
        other: u32,
    },
    ArrayLengthMismatch {
        value: u32,
        expected: u32,
        actual: u32,
    },
    ObjectLiteralKeysMismatch {
        value: u32,
        pattern: u32,
    },
    ObjectFieldCountMismatch {
        left: u32,
        keys: u32,
        fields: u32,
    },
    ObjectKeyNotFound {
        key: u32,
    },
    VariableAlreadyDefined {
        name: u32,
    },
    IncompatibleDestructuringPatterns {
        side: u32,
    },
    ReservedName {
        name: u32,
    },
}

impl From<TableRefusal> for PlanRefusal {
    ghost from_gives = { λ t r. r ≡ TableRefused t };

    fn from(refused: TableRefusal) -> PlanRefusal {
        PlanRefusal::TableRefused(refused)
    }
}
