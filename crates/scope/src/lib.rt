// Scopes (compiler/context.rs, and the impl of VariableBindingContext for ScopeContext in hoist.rs).
#![tactic(auto)]

ghost use Rattle.std.specs.Prelude.{◌≡◌, cond};
ghost use Rattle.scope.specs.Says.{marked_unbound, taken};
ghost use Rattle.scope.specs.Scope.{says, new_scope, child_of, bind_variable, add_unbound_variable, is_unbound, same_scope, bound_count, Called, asked, question_of};
ghost use Rattle.scope.specs.Bytes.{sum_of, to_bytes, converted, ConvertedFrom};

use bytes::{marked, marks_ok, weight};
use name_set::{NameSet, is_name};

mod bytes;
pub mod name_set;

// The names with each mark: bound, bound in this scope, unbound, local, global. `underscore` is
// the number of the name `_`, or 0.
#[derive(Clone, Copy)]
pub struct Scope {
    pub bound: NameSet,
    pub here: NameSet,
    pub unbound: NameSet,
    pub local: NameSet,
    pub global: NameSet,
    pub underscore: u32,
    pub scheduler: bool,
}

// The byte layout, for sheets: the marks of name x stand at marks[x - 1], summed: 1 bound, 2 bound
// in this scope, 4 unbound, 8 local, 16 global.
#[derive(Clone, Copy)]
pub struct ByteScope {
    pub marks: [u8; 128],
    pub underscore: u32,
    pub scheduler: bool,
}

#[derive(Clone, Copy)]
pub enum ScopingMode {
    RespectParent,
    AllowShadowing,
}

// The number of a call or question is no name's: not 1 to 128.
#[derive(Clone, Copy, Debug, PartialEq, Eq)]
pub struct NameOutside;

// A mark above 31.
#[derive(Clone, Copy, Debug, PartialEq, Eq)]
pub struct MarkOutside;

impl Scope {
    pub fn new(underscore: u32, scheduler: bool) -> Self
        ensures { result ≡ new_scope underscore scheduler }
    {
        let none = NameSet::empty();
        Self {
            bound: none,
            here: none,
            unbound: none,
            local: none,
            global: none,
            underscore,
            scheduler,
        }
    }

    // The scope of bytes, and an empty one where a mark is above 31.
    pub fn converted(bytes: ByteScope) -> Self
        ensures { result ≡ converted bytes }
    {
        Self::try_from(bytes).unwrap_or(Self::new(0, false))
    }

    // The same scope with no name bound in it.
    pub fn child(mut self) -> Self
        ensures { result ≡ child_of self }
    {
        self.here = NameSet::empty();
        self
    }

    pub fn bind_variable(self, name: u32) -> Result<Self, NameOutside>
        ensures { Called name (bind_variable self name) result }
    {
        self.mark_as(name, true)
    }

    pub fn add_unbound_variable(self, name: u32) -> Result<Self, NameOutside>
        ensures { Called name (add_unbound_variable self name) result }
    {
        self.mark_as(name, false)
    }

    pub fn is_var_unbound(self, name: u32, scoping: ScopingMode) -> Result<bool, NameOutside>
        ensures { question_of result ≡ asked name (is_unbound self scoping name) }
    {
        if !is_name(name) {
            return Err(NameOutside);
        }
        if name == self.underscore {
            return Ok(false); // under both scopings
        }
        if self.marked_unbound(name) {
            return Ok(true);
        }
        match scoping {
            ScopingMode::AllowShadowing => Ok(true),
            ScopingMode::RespectParent => Ok(!self.taken(name)),
        }
    }

    pub fn has_same_scope_binding(self, name: u32) -> Result<bool, NameOutside>
        ensures { question_of result ≡ asked name (same_scope self name) }
    {
        if !is_name(name) {
            return Err(NameOutside);
        }
        if name == self.underscore {
            return Ok(false);
        }
        Ok(self.here.contains(name))
    }

    // How many names are bound.
    pub fn bound_count(self) -> u32
        ensures { result ≡ bound_count self }
    {
        self.bound.count()
    }

    // The name bound in this scope, or unbound; `_` stays as it is.
    fn mark_as(self, name: u32, bound: bool) -> Result<Self, NameOutside>
        ensures { Called name (cond bound (bind_variable self name) (add_unbound_variable self name)) result }
    {
        if !is_name(name) {
            return Err(NameOutside);
        }
        if name == self.underscore {
            return Ok(self);
        }
        Ok(Self {
            bound: self.bound.put(name, bound),
            here: self.here.put(name, bound),
            unbound: self.unbound.put(name, !bound),
            local: self.local.put(name, false),
            ..self
        })
    }

    // unbound by its mark, or local under a scheduler
    fn marked_unbound(self, name: u32) -> bool
        ensures { result ≡ marked_unbound self.scheduler (says self name) }
    {
        if self.unbound.contains(name) {
            return true;
        }
        if self.scheduler {
            return self.local.contains(name);
        }
        false
    }

    // bound or global
    fn taken(self, name: u32) -> bool
        ensures { result ≡ taken (says self name) }
    {
        if self.bound.contains(name) {
            return true;
        }
        self.global.contains(name)
    }

    // The marks of a name, summed.
    fn mark(self, name: u32) -> u8
        ensures { result ≡ sum_of self name }
    {
        weight(self.bound, name, 1)
            + weight(self.here, name, 2)
            + weight(self.unbound, name, 4)
            + weight(self.local, name, 8)
            + weight(self.global, name, 16)
    }
}

impl TryFrom<ByteScope> for Scope {
    type Error = MarkOutside;

    ghost try_from_gives = { ConvertedFrom };

    fn try_from(bytes: ByteScope) -> Result<Self, MarkOutside> {
        if !marks_ok(bytes) {
            return Err(MarkOutside);
        }
        Ok(Self {
            bound: marked(&bytes.marks, 0),
            here: marked(&bytes.marks, 1),
            unbound: marked(&bytes.marks, 2),
            local: marked(&bytes.marks, 3),
            global: marked(&bytes.marks, 4),
            underscore: bytes.underscore,
            scheduler: bytes.scheduler,
        })
    }
}

impl From<Scope> for ByteScope {
    ghost from_gives = { λ scope bytes. bytes ≡ to_bytes scope };

    fn from(scope: Scope) -> Self {
        let mut marks = [0u8; 128];
        for i in 0..128 {
            marks[i] = scope.mark(i as u32 + 1);
        }
        Self {
            marks,
            underscore: scope.underscore,
            scheduler: scope.scheduler,
        }
    }
}
