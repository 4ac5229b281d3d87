ghost use Rattle.std.specs.Prelude.{◌≡◌, ◌++◌, ◌&&◌, true, is_none, bytes_eq, string_bytes};
ghost use Rattle.std.specs.List.{list_any};
ghost use Rattle.hol_terms.specs.Name.{dot_abs, dot_rep, is_name};
ghost use Rattle.hol_terms.specs.Signature.{entry_at, is_new, may_introduce};
ghost use Rattle.hol_terms.specs.Table.{named};
ghost use Rattle.hol_terms.specs.TypeNames.{may_introduce_type};

use crate::sig::Sig;
use indexmap::IndexMap;

impl Sig {
    /// Whether a definition may introduce a type of the name: the name, and the name followed by `.abs` and by `.rep`, may each
    /// be introduced. It reads the whole table of names.
    pub fn may_introduce_type(&self, name: &str) -> bool
        ensures { result ≡ may_introduce_type self.now name.now }
    {
        self.may_introduce(name) && self.may_introduce_ends(name)
    }

    /// The same of the name followed by `.abs` and by `.rep` alone.
    fn may_introduce_ends(&self, name: &str) -> bool
        requires { is_name name.now ≡ true }
        ensures { result ≡ (may_introduce self.now (dot_abs name.now) && may_introduce self.now (dot_rep name.now)) }
    {
        name != "0" && self.are_ends_new(name)
    }

    fn are_ends_new(&self, name: &str) -> bool
        ensures { result ≡ (is_new self.now (dot_abs name.now) && is_new self.now (dot_rep name.now)) }
    {
        self.is_new_with(name, ".abs") && self.is_new_with(name, ".rep")
    }

    /// Whether no type or constant has the name followed by `end`.
    fn is_new_with(&self, name: &str, end: &str) -> bool
        ensures { result ≡ is_new self.now (name.now ++ end.now) }
    {
        lacks(&self.types, name, end) && lacks(&self.consts, name, end)
    }
}

/// Whether the table has no entry of the name followed by `end`. It reads the whole table.
fn lacks<A>(table: &IndexMap<String, A>, name: &str, end: &str) -> bool
    ensures { result ≡ is_none (entry_at (named table.now.entries) (name.now ++ end.now)) }
{
    !has_joined(table.keys().as_slice(), name, end)
}

fn has_joined(keys: &[String], name: &str, end: &str) -> bool
    ensures { result ≡ list_any (λ k. bytes_eq (string_bytes k) (name.now ++ end.now)) keys.now }
{
    keys.iter().any(|key| is_joined(key.as_str(), name, end))
}

fn is_joined(key: &str, name: &str, end: &str) -> bool
    ensures { result ≡ bytes_eq key.now (name.now ++ end.now) }
{
    match key.as_bytes().strip_prefix(name.as_bytes()) {
        Some(rest) => rest == end.as_bytes(),
        None => false,
    }
}
