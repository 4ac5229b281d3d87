ghost use Rattle.std.specs.Prelude.{◌≡◌, map, IfOk, MatchOption, Some, None, string_bytes};
ghost use Rattle.std.specs.Option.{option_map};
ghost use Rattle.hol_terms.specs.Ty.{ty_var};
ghost use Rattle.decl_core.specs.Declaration.{type_of, arg_types};

use hol_terms::types::HolType;
use std::alloc::{AllocError, Global};
use std::marker::Model;

/// An argument of a constructor: its type, and the name of its selector if it has one.
#[derive(Drop)]
pub struct Argument {
    selector: Option<String>,
    ty: HolType,
}

impl Model for Argument {
    ghost use Rattle.std.specs.Prelude.{string_bytes};
    ghost use Rattle.std.specs.Option.{option_map};
    ghost use Rattle.decl_core.specs.Declaration.{Arg, arg_code};

    ghost Value = { Arg };

    ghost coded = { arg_code };

    ghost view = { λ a. record { selector = option_map string_bytes a.selector; ty = a.ty } };
}

impl Argument {
    /// The argument of the type, under the selector if there is one.
    pub fn new(selector: Option<String>, ty: HolType) -> Argument
        ensures { result ≡ record { selector = option_map string_bytes selector; ty = ty } }
    {
        Argument { selector, ty }
    }

    /// The selector's name, or None where the argument has none.
    pub fn selector(&self) -> Option<&str>
        ensures { MatchOption result (self.now.selector ≡ None) (λ s. self.now.selector ≡ Some s.now) }
    {
        match &self.selector {
            Some(name) => Some(name.as_str()),
            None => None,
        }
    }

    /// The type of the argument.
    pub fn ty(&self) -> &HolType
        ensures { result.now ≡ self.now.ty }
    {
        &self.ty
    }
}

/// A constructor: its name, and its arguments in order.
#[derive(Drop)]
pub struct Constructor {
    name: String,
    args: Vec<Argument>,
}

impl Model for Constructor {
    ghost use Rattle.std.specs.Prelude.{string_bytes};
    ghost use Rattle.decl_core.specs.Declaration.{Ctor, ctor_code};

    ghost Value = { Ctor };

    ghost coded = { ctor_code };

    ghost view = { λ a. record { name = string_bytes a.name; args = a.args.items } };
}

impl Constructor {
    /// The constructor of the name, with these arguments in order.
    pub fn new(name: String, args: Vec<Argument>) -> Constructor
        ensures { result ≡ record { name = string_bytes name; args = args.items } }
    {
        Constructor { name, args }
    }

    /// The name.
    pub fn name(&self) -> &str
        ensures { result.now ≡ self.now.name }
    {
        self.name.as_str()
    }

    /// The arguments, in order.
    pub fn args(&self) -> &[Argument]
        ensures { result.now ≡ self.now.args }
    {
        &self.args
    }

    /// The types of the arguments.
    pub fn arg_types(&self, alloc: Global) -> Result<Vec<HolType>, AllocError>
        ensures { IfOk result (λ v. v.items ≡ arg_types self.now) }
    {
        let mut types = Vec::new(alloc);
        for arg in self.args() {
            types.push(arg.ty().copy()?)?;
        }
        Ok(types)
    }
}

/// A type of a `datatype` or `codatatype` command: its parameters without their quotes, its name, and its constructors in order.
#[derive(Drop)]
pub struct Declaration {
    params: Vec<String>,
    name: String,
    ctors: Vec<Constructor>,
    ty: HolType,
}

impl Model for Declaration {
    ghost use Rattle.std.specs.Prelude.{◌≡◌, map, string_bytes};
    ghost use Rattle.decl_core.specs.Declaration.{Decl, decl_code, type_at};

    ghost Value = { Decl };

    ghost coded = { decl_code };

    ghost view = { λ d. record { params = map string_bytes d.params.items; name = string_bytes d.name; ctors = d.ctors.items } };

    ghost invariant = { λ d. d.ty ≡ type_at (string_bytes d.name) (map string_bytes d.params.items) };
}

impl Declaration {
    /// The declaration of the type `name` with these parameters. An error says that memory was refused.
    pub fn new(
        alloc: Global,
        params: Vec<String>,
        name: String,
        ctors: Vec<Constructor>,
    ) -> Result<Declaration, AllocError>
        ensures { IfOk result (λ d. d ≡ record { params = map string_bytes params.items; name = string_bytes name; ctors = ctors.items }) }
    {
        let vars = type_variables(alloc, &params)?;
        let ty = HolType::app(alloc, name.as_str(), &vars)?;
        Ok(Declaration {
            params,
            name,
            ctors,
            ty,
        })
    }

    /// The parameters, in order and without their quotes.
    pub fn params(&self) -> &[String]
        ensures { map string_bytes result.now ≡ self.now.params }
    {
        &self.params
    }

    /// The name.
    pub fn name(&self) -> &str
        ensures { result.now ≡ self.now.name }
    {
        self.name.as_str()
    }

    /// The constructors, in order.
    pub fn ctors(&self) -> &[Constructor]
        ensures { result.now ≡ self.now.ctors }
    {
        &self.ctors
    }

    /// The type at its parameters.
    pub fn ty(&self) -> &HolType
        ensures { result.now ≡ type_of self.now }
    {
        &self.ty
    }
}

/// The type variables of these names.
fn type_variables(alloc: Global, names: &[String]) -> Result<Vec<HolType>, AllocError>
    ensures { IfOk result (λ v. v.items ≡ map ty_var (map string_bytes names.now)) }
{
    let mut vars = Vec::new(alloc);
    for name in names {
        vars.push(HolType::var(alloc, name.as_str())?)?;
    }
    Ok(vars)
}
