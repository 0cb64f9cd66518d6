use super::Whole;
use crate::code::{Body, Handler, Instr};
use abc_base::NoMemory;
use std::alloc::Global;

impl Whole for Handler {
    fn same(&self, other: &Handler) -> bool {
        self.from == other.from
            && self.to == other.to
            && self.target == other.target
            && self.exc_type == other.exc_type
            && self.var_name == other.var_name
    }

    fn copy(&self, _alloc: Global) -> Result<Handler, NoMemory> {
        Ok(*self)
    }
}

impl Whole for Instr {
    fn same(&self, other: &Instr) -> bool {
        match self {
            Instr::Plain(op) => match other {
                Instr::Plain(o) => *op == *o,
                _ => false,
            },
            Instr::One(op, n) => match other {
                Instr::One(o, x) => *op == *o && *n == *x,
                _ => false,
            },
            Instr::Two(op, n, m) => match other {
                Instr::Two(o, x, y) => *op == *o && *n == *x && *m == *y,
                _ => false,
            },
            Instr::Branch(op, target) => match other {
                Instr::Branch(o, t) => *op == *o && *target == *t,
                _ => false,
            },
            Instr::Switch { default, cases } => match other {
                Instr::Switch {
                    default: d,
                    cases: c,
                } => *default == *d && cases.same(c),
                _ => false,
            },
            Instr::Byte(value) => match other {
                Instr::Byte(v) => *value == *v,
                _ => false,
            },
            Instr::Short(value) => match other {
                Instr::Short(v) => *value == *v,
                _ => false,
            },
            Instr::ScopeObject(local) => match other {
                Instr::ScopeObject(l) => *local == *l,
                _ => false,
            },
            Instr::Debug {
                kind,
                name,
                reg,
                extra,
            } => match other {
                Instr::Debug {
                    kind: k,
                    name: n,
                    reg: r,
                    extra: e,
                } => { *kind == *k && *name == *n && *reg == *r && *extra == *e }
                _ => false,
            },
        }
    }

    fn copy(&self, alloc: Global) -> Result<Instr, NoMemory> {
        Ok(match self {
            Instr::Plain(op) => Instr::Plain(*op),
            Instr::One(op, n) => Instr::One(*op, *n),
            Instr::Two(op, n, m) => Instr::Two(*op, *n, *m),
            Instr::Branch(op, target) => Instr::Branch(*op, *target),
            Instr::Switch { default, cases } => Instr::Switch {
                default: *default,
                cases: cases.copy(alloc)?,
            },
            Instr::Byte(value) => Instr::Byte(*value),
            Instr::Short(value) => Instr::Short(*value),
            Instr::ScopeObject(local) => Instr::ScopeObject(*local),
            Instr::Debug {
                kind,
                name,
                reg,
                extra,
            } => Instr::Debug {
                kind: *kind,
                name: *name,
                reg: *reg,
                extra: *extra,
            },
        })
    }
}

impl Whole for Body {
    fn same(&self, other: &Body) -> bool {
        self.method == other.method
            && self.max_stack == other.max_stack
            && self.local_count == other.local_count
            && self.init_scope == other.init_scope
            && self.max_scope == other.max_scope
            && self.code.same(&other.code)
            && self.handlers.same(&other.handlers)
            && self.traits.same(&other.traits)
    }

    fn copy(&self, alloc: Global) -> Result<Body, NoMemory> {
        let code = self.code.copy(alloc)?;
        let handlers = self.handlers.copy(alloc)?;
        let traits = self.traits.copy(alloc)?;
        Ok(Body {
            method: self.method,
            max_stack: self.max_stack,
            local_count: self.local_count,
            init_scope: self.init_scope,
            max_scope: self.max_scope,
            code,
            handlers,
            traits,
        })
    }
}
