//! How numbers are written, and how short logs come out: each function does nothing, and its contract is the law.

ghost use Rattle.std.specs.Prelude.{◌≡◌, ℕ, true, [], ◌∷◌, ◌++◌, codes};
ghost use Rattle.std.specs.Str.Parse.{digits_value};
ghost use Rattle.hol_terms.specs.Text.{Text};
ghost use Rattle.hol_logs.specs.Step.{numeral, is_numeral};
ghost use Rattle.hol_logs.specs.Position.{by_form, by_number, by_rule, by_base, by_cut};
ghost use Rattle.hol_logs.specs.Log.{unlines, IsGoodLog, IsBadLog};

/// The numeral of a number has that number as its value, and digits without leading zeros are the numeral of their value.
pub fn numbers_are_told_by_their_digits()
    ensures value { (n : ℕ) → digits_value 10 (numeral n) ≡ n }
    ensures digits { (ds : Text) → is_numeral ds ≡ true → numeral (digits_value 10 ds) ≡ ds }
{}

/// The empty log is cut before its first line.
pub fn empty_log_is_cut()
    ensures { (n : ℕ) → IsBadLog n [] [] 1 by_cut }
{}

/// A log that ends before its base line is bad at its end.
pub fn end_before_the_base_is_bad()
    ensures { (n : ℕ) → IsBadLog n (unlines (codes "hbnf-log 1" ∷ codes "end 1" ∷ [])) [] 2 by_base }
{}

/// A log that begins otherwise than with the format's name and version is bad at its first line.
pub fn other_first_line_is_bad()
    ensures { (n : ℕ) → IsBadLog n (unlines (codes "end 0" ∷ [])) [] 1 by_form }
{}

/// A line that names a step which isn't there yet is bad for its number.
pub fn later_step_is_bad()
    ensures { (n : ℕ) → IsBadLog n (unlines (codes "hbnf-log 1" ∷ codes "refl [a:bool]" ∷ codes "trans 0 1" ∷ [])) [] 3 by_number }
{}

/// A line whose steps don't meet the condition of its rule is bad for that: `a = a` and `b = b` have no side in common.
pub fn rule_that_fails_is_bad()
    ensures { (n : ℕ) → IsBadLog n (unlines (codes "hbnf-log 1" ∷ codes "refl [a:bool]" ∷ codes "refl [b:bool]" ∷ codes "trans 0 1" ∷ [])) [] 4 by_rule }
{}

/// With no base definition in force the shortest good log has three lines, and reports the second; without its last newline it
/// is cut, and reports the same.
pub fn shortest_log_is_good()
    ensures good { IsGoodLog 0 (unlines (codes "hbnf-log 1" ∷ codes "base 0" ∷ codes "end 2" ∷ [])) (unlines (codes "base 0" ∷ [])) }
    ensures cut { IsBadLog 0 (unlines (codes "hbnf-log 1" ∷ codes "base 0" ∷ []) ++ codes "end 2") (unlines (codes "base 0" ∷ [])) 4 by_cut }
{}

/// A log that defines the identity, and what it reports: the base line, the section's line, the definition and the theorem.
pub fn log_of_one_definition_is_good()
    ensures { IsGoodLog 0
        (unlines (codes "hbnf-log 1" ∷ codes "base 0" ∷ codes "section command 1 define ident" ∷ codes "const ident := \\x0:'a. x0" ∷ codes "name ident.def 0 ident{'a} = (\\x0:'a. x0)" ∷ codes "end 5" ∷ []))
        (unlines (codes "base 0" ∷ codes "command 1 define ident" ∷ codes "def ident : 'a -> 'a = \\x0:'a. x0" ∷ codes "thm ident.def : ident{'a} = (\\x0:'a. x0)" ∷ [])) }
{}
