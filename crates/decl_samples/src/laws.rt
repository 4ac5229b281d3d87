//! Facts of some declared types, in canonical text. Each function does nothing, and its contract is the list.

ghost use Rattle.std.specs.Prelude.{◌≡◌, map};
ghost use Rattle.decl_samples.specs.Lines.{fact_line};
ghost use Rattle.decl_samples.specs.Enumeration as enumeration;
ghost use Rattle.decl_samples.specs.Options as options;
ghost use Rattle.decl_samples.specs.Records as records;
ghost use Rattle.decl_samples.specs.SomeSelectors as some_selectors;
ghost use Rattle.decl_samples.specs.OneValue as one_value;
ghost use Rattle.decl_samples.specs.FunctionArguments as function_arguments;
ghost use Rattle.decl_samples.specs.UnusedParameters1 as unused_parameters_1;
ghost use Rattle.decl_samples.specs.UnusedParameters as unused_parameters;
ghost use Rattle.decl_samples.specs.Lists as lists;
ghost use Rattle.decl_samples.specs.Trees as trees;
ghost use Rattle.decl_samples.specs.RoseTrees as rose_trees;
ghost use Rattle.decl_samples.specs.Fans as fans;
ghost use Rattle.decl_samples.specs.FourParameters as four_parameters;
ghost use Rattle.decl_samples.specs.TreesAndForests as trees_and_forests;
ghost use Rattle.decl_samples.specs.Streams as streams;
ghost use Rattle.decl_samples.specs.LazyLists as lazy_lists;
ghost use Rattle.decl_samples.specs.Processes as processes;
ghost use Rattle.decl_samples.specs.DeadParameters1 as dead_parameters_1;
ghost use Rattle.decl_samples.specs.DeadParameters as dead_parameters;
ghost use Rattle.decl_samples.specs.InfiniteTrees as infinite_trees;
ghost use Rattle.decl_samples.specs.TwoArgumentsInside as two_arguments_inside;
ghost use Rattle.decl_samples.specs.OneLoop as one_loop;
ghost use Rattle.decl_samples.specs.Languages1 as languages_1;
ghost use Rattle.decl_samples.specs.Languages2 as languages_2;
ghost use Rattle.decl_samples.specs.Languages as languages;
ghost use Rattle.decl_samples.specs.MutualWithoutParameters as mutual_without_parameters;
ghost use Rattle.decl_samples.specs.MutualEnumerations as mutual_enumerations;
ghost use Rattle.decl_samples.specs.MutualCodatatypes as mutual_codatatypes;
ghost use Rattle.decl_samples.specs.ProductsAndSums as products_and_sums;
ghost use Rattle.decl_samples.specs.Naturals as naturals;
ghost use Rattle.decl_samples.specs.Tokens as tokens;

/// `datatype abc = A | B | C;`
pub fn facts_of_enumeration()
    ensures { map fact_line enumeration.facts ≡ enumeration.lines }
{}

/// `datatype 'a option = None | Some (the : 'a);`
pub fn facts_of_options()
    ensures { map fact_line options.facts ≡ options.lines }
{}

/// `datatype ('a,'b) rec2 = Rec (left : 'a) (right : 'b) num;`
pub fn facts_of_records()
    ensures { map fact_line records.facts ≡ records.lines }
{}

/// `datatype ('a,'b) t = A (p : 'a) 'b | B (q : num) | C;`
pub fn facts_of_some_selectors()
    ensures { map fact_line some_selectors.facts ≡ some_selectors.lines }
{}

/// `datatype solo = Solo;`
pub fn facts_of_one_value()
    ensures { map fact_line one_value.facts ≡ one_value.lines }
{}

/// `datatype 'a f = F0 | F1 (bool -> num -> 'a f) | F2 ((num, bool) prod -> 'a);`
pub fn facts_of_function_arguments()
    ensures { map fact_line function_arguments.facts ≡ function_arguments.lines }
{}

/// `datatype ('a,'b) ph = Ph 'a;`
pub fn facts_of_unused_parameters_1()
    ensures { map fact_line unused_parameters_1.facts ≡ unused_parameters_1.lines }
{}

/// `codatatype ('a,'b) cph = Cph 'b;`
pub fn facts_of_unused_parameters()
    ensures { map fact_line unused_parameters.facts ≡ unused_parameters.lines }
{}

/// `datatype 'a list = Nil | Cons (hd : 'a) (tl : 'a list);`
pub fn facts_of_lists()
    ensures { map fact_line lists.facts ≡ lists.lines }
{}

/// `datatype 'a tree = Leaf | Node ('a tree) 'a ('a tree);`
pub fn facts_of_trees()
    ensures { map fact_line trees.facts ≡ trees.lines }
{}

/// `datatype 'a rose = Rose 'a (('a rose) list);`
pub fn facts_of_rose_trees()
    ensures { map fact_line rose_trees.facts ≡ rose_trees.lines }
{}

/// `datatype 'a fan = Tip 'a | Fan (num -> 'a fan);`
pub fn facts_of_fans()
    ensures { map fact_line fans.facts ≡ fans.lines }
{}

/// `datatype ('a,'b,'c,'d) q = Q 'a 'b ('c cset) (num -> 'd);`
pub fn facts_of_four_parameters()
    ensures { map fact_line four_parameters.facts ≡ four_parameters.lines }
{}

/// `datatype 'a tree = Node 'a ('a forest) and 'a forest = FNil | FCons ('a tree) ('a forest);`
pub fn facts_of_trees_and_forests()
    ensures { map fact_line trees_and_forests.facts ≡ trees_and_forests.lines }
{}

/// `codatatype 'a stream = SCons (shd : 'a) (stl : 'a stream);`
pub fn facts_of_streams()
    ensures { map fact_line streams.facts ≡ streams.lines }
{}

/// `codatatype 'a llist = LNil | LCons 'a ('a llist);`
pub fn facts_of_lazy_lists()
    ensures { map fact_line lazy_lists.facts ≡ lazy_lists.lines }
{}

/// `codatatype ('a,'b) proc = Step ('a) (('b, ('a,'b) proc) prod cset);`
pub fn facts_of_processes()
    ensures { map fact_line processes.facts ≡ processes.lines }
{}

/// `datatype ('a,'b) fn = Fn ('a -> 'b) | Val 'b;`
pub fn facts_of_dead_parameters_1()
    ensures { map fact_line dead_parameters_1.facts ≡ dead_parameters_1.lines }
{}

/// `datatype 'a pred = Pred ('a -> bool);`
pub fn facts_of_dead_parameters()
    ensures { map fact_line dead_parameters.facts ≡ dead_parameters.lines }
{}

/// `codatatype 'a inf = Inf 'a (num -> 'a inf);`
pub fn facts_of_infinite_trees()
    ensures { map fact_line infinite_trees.facts ≡ infinite_trees.lines }
{}

/// `datatype 'a w = W (('a w) cset) 'a | V ('a cset) ('a cset);`
pub fn facts_of_two_arguments_inside()
    ensures { map fact_line two_arguments_inside.facts ≡ two_arguments_inside.lines }
{}

/// `codatatype loop = Loop loop;`
pub fn facts_of_one_loop()
    ensures { map fact_line one_loop.facts ≡ one_loop.lines }
{}

/// `datatype typ = Int | Arrow typ typ;`
pub fn facts_of_languages_1()
    ensures { map fact_line languages_1.facts ≡ languages_1.lines }
{}

/// `datatype exp = Var num | Lam typ exp | App exp exp | Lit num;`
pub fn facts_of_languages_2()
    ensures { map fact_line languages_2.facts ≡ languages_2.lines }
{}

/// `datatype value = VNum num | VClos exp (num -> value);`
pub fn facts_of_languages()
    ensures { map fact_line languages.facts ≡ languages.lines }
{}

/// `datatype 'a t = C 'a and 'a u = D ('a t) | E;`
pub fn facts_of_mutual_without_parameters()
    ensures { map fact_line mutual_without_parameters.facts ≡ mutual_without_parameters.lines }
{}

/// `datatype p = P and q = Q;`
pub fn facts_of_mutual_enumerations()
    ensures { map fact_line mutual_enumerations.facts ≡ mutual_enumerations.lines }
{}

/// `codatatype 'a even = E 'a ('a odd) and 'a odd = O ('a even);`
pub fn facts_of_mutual_codatatypes()
    ensures { map fact_line mutual_codatatypes.facts ≡ mutual_codatatypes.lines }
{}

/// `datatype 'a t = Te | Tf (('a t, ('a, 'a t) sum) prod);`
pub fn facts_of_products_and_sums()
    ensures { map fact_line products_and_sums.facts ≡ products_and_sums.lines }
{}

/// `datatype n = Z | S n;`
pub fn facts_of_naturals()
    ensures { map fact_line naturals.facts ≡ naturals.lines }
{}

/// `datatype tok = Num num | Plus | Times | Open | Close | Name (num -> bool);`
pub fn facts_of_tokens()
    ensures { map fact_line tokens.facts ≡ tokens.lines }
{}
