// Written by `python3 tools/library.py write` from the scripts of tools/library/.
//! The facts of this library, in the order of proving.

use library_facts::Fact;

// On countable sets.

/// What the numbers enumerate is countable.
pub const COUNTABLE_ENUMERATED: Fact = Fact {
    statement: "!x0:'a -> bool. !x1:num -> 'a. (!x2:'a. x0 x2 ==> (?x3:num. x2 = x1 x3)) ==> countable{'a} x0",
};

/// There is a function that enumerates each countable set by numbers.
pub const COUNTABLE_ENUMERATION: Fact = Fact {
    statement: "?x0:('a -> bool) -> num -> 'a. !x1:'a -> bool. countable{'a} x1 ==> (!x2:'a. x1 x2 ==> (?x3:num. x2 = x0 x1 x3))",
};

/// A subset of a countable set is countable.
pub const COUNTABLE_SUBSET: Fact = Fact {
    statement: "!x0:'a -> bool. !x1:'a -> bool. countable{'a} x1 ==> ((!x2:'a. x0 x2 ==> x1 x2) ==> countable{'a} x0)",
};

/// Each set of elements of a countable type is countable.
pub const COUNTABLE_ON_TYPE: Fact = Fact {
    statement: "!x0:'a -> bool. countable{'a} (\\x1:'a. T) ==> countable{'a} x0",
};

/// The numbers are countable.
pub const COUNTABLE_NUM: Fact = Fact {
    statement: "countable{num} (\\x0:num. T)",
};

/// The empty set is countable.
pub const COUNTABLE_EMPTY: Fact = Fact {
    statement: "countable{'a} (\\x0:'a. F)",
};

/// A set of one element is countable.
pub const COUNTABLE_SINGLETON: Fact = Fact {
    statement: "!x0:'a. countable{'a} (\\x1:'a. x1 = x0)",
};

/// Unit is countable.
pub const COUNTABLE_UNIT: Fact = Fact {
    statement: "countable{unit} (\\x0:unit. T)",
};

/// The truth values are countable.
pub const COUNTABLE_BOOL: Fact = Fact {
    statement: "countable{bool} (\\x0:bool. T)",
};

/// What the pairs of numbers enumerate is countable.
pub const COUNTABLE_ENUMERATED_TWICE: Fact = Fact {
    statement: "!x0:'a -> bool. !x1:num -> num -> 'a. (!x2:'a. x0 x2 ==> (?x3:num. ?x4:num. x2 = x1 x3 x4)) ==> countable{'a} x0",
};

// On unions, images, products and sums of countable sets.

/// The union of countably many countable sets is countable.
pub const COUNTABLE_UNION: Fact = Fact {
    statement: "!x0:'a -> bool. !x1:'a -> 'b -> bool. countable{'a} x0 ==> ((!x2:'a. x0 x2 ==> countable{'b} (x1 x2)) ==> countable{'b} (\\x2:'b. ?x3:'a. x0 x3 /\\ x1 x3 x2))",
};

/// The union of two countable sets is countable.
pub const COUNTABLE_UNION_OF_TWO: Fact = Fact {
    statement: "!x0:'a -> bool. !x1:'a -> bool. countable{'a} x0 ==> (countable{'a} x1 ==> countable{'a} (\\x2:'a. x0 x2 \\/ x1 x2))",
};

/// The image of a countable set is countable.
pub const COUNTABLE_IMAGE: Fact = Fact {
    statement: "!x0:'a -> bool. !x1:'a -> 'b. countable{'a} x0 ==> countable{'b} (\\x2:'b. ?x3:'a. x0 x3 /\\ (x2 = x1 x3))",
};

/// The values of a function on a countable type are countable.
pub const COUNTABLE_RANGE: Fact = Fact {
    statement: "!x0:'a -> 'b. countable{'a} (\\x1:'a. T) ==> countable{'b} (\\x1:'b. ?x2:'a. x1 = x0 x2)",
};

/// What is mapped injectively into a countable set is countable.
pub const COUNTABLE_INJECTION: Fact = Fact {
    statement: "!x0:'a -> bool. !x1:'b -> bool. !x2:'a -> 'b. countable{'b} x1 ==> ((!x3:'a. x0 x3 ==> x1 (x2 x3)) ==> ((!x3:'a. !x4:'a. x0 x3 ==> (x0 x4 ==> ((x2 x3 = x2 x4) ==> (x3 = x4)))) ==> countable{'a} x0))",
};

/// The pairs from two countable sets are countable.
pub const COUNTABLE_PRODUCT: Fact = Fact {
    statement: "!x0:'a -> bool. !x1:'b -> bool. countable{'a} x0 ==> (countable{'b} x1 ==> countable{('a,'b) prod} (\\x2:('a,'b) prod. x0 (fst{'a,'b} x2) /\\ x1 (snd{'a,'b} x2)))",
};

/// The product of countable types is countable.
pub const COUNTABLE_PROD: Fact = Fact {
    statement: "countable{'a} (\\x0:'a. T) ==> (countable{'b} (\\x0:'b. T) ==> countable{('a,'b) prod} (\\x0:('a,'b) prod. T))",
};

/// The sum of countable types is countable.
pub const COUNTABLE_SUM: Fact = Fact {
    statement: "countable{'a} (\\x0:'a. T) ==> (countable{'b} (\\x0:'b. T) ==> countable{('a,'b) sum} (\\x0:('a,'b) sum. T))",
};

// On the type of countable sets.

/// A countable set is the one that its representation stands for.
pub const CSET_ABS_REP: Fact = Fact {
    statement: "!x0:'a cset. cset.abs{'a} (cset.rep{'a} x0) = x0",
};

/// A predicate represents a countable set where it is countable.
pub const CSET_REP_ABS: Fact = Fact {
    statement: "!x0:'a -> bool. countable{'a} x0 = (cset.rep{'a} (cset.abs{'a} x0) = x0)",
};

/// The members of a countable set are countable.
pub const CSET_COUNTABLE: Fact = Fact {
    statement: "!x0:'a cset. countable{'a} (cset.rep{'a} x0)",
};

/// Countable sets with the same members are equal.
pub const CSET_EXTENSIONALITY: Fact = Fact {
    statement: "!x0:'a cset. !x1:'a cset. (!x2:'a. cset.rep{'a} x0 x2 = cset.rep{'a} x1 x2) ==> (x0 = x1)",
};

/// The set of a countable predicate has the members of the predicate.
pub const CSET_MEMBER: Fact = Fact {
    statement: "!x0:'a -> bool. countable{'a} x0 ==> (!x1:'a. cset.rep{'a} (cset.abs{'a} x0) x1 = x0 x1)",
};

/// The members of an image.
pub const CSET_MAP_MEMBER: Fact = Fact {
    statement: "!x0:'a -> 'b. !x1:'a cset. !x2:'b. cset.rep{'b} (cset.map{'a,'b} x0 x1) x2 = (?x3:'a. cset.rep{'a} x1 x3 /\\ (x2 = x0 x3))",
};

/// The image is the countable set of the values.
pub const CSET_MAP_IS: Fact = Fact {
    statement: "!x0:'a -> 'b. !x1:'a cset. !x2:'b cset. (!x3:'b. (?x4:'a. cset.rep{'a} x1 x4 /\\ (x3 = x0 x4)) = cset.rep{'b} x2 x3) ==> (cset.map{'a,'b} x0 x1 = x2)",
};

/// There is one of a kind in an image where there is one in the set whose value is of the kind.
pub const CSET_MAP_EXISTS: Fact = Fact {
    statement: "!x0:'a -> 'b. !x1:'a cset. !x2:'b -> bool. (?x3:'b. cset.rep{'b} (cset.map{'a,'b} x0 x1) x3 /\\ x2 x3) = (?x3:'a. cset.rep{'a} x1 x3 /\\ x2 (x0 x3))",
};

/// Functor law map_id of cset.
pub const CSET_MAP_ID: Fact = Fact {
    statement: "!x0:'a cset. cset.map{'a,'a} id{'a} x0 = x0",
};

/// Functor law map_comp of cset.
pub const CSET_MAP_COMP: Fact = Fact {
    statement: "!x0:'a -> 'b. !x1:'b -> 'c. !x2:'a cset. cset.map{'b,'c} x1 (cset.map{'a,'b} x0 x2) = cset.map{'a,'c} (\\x3:'a. x1 (x0 x3)) x2",
};

/// The set function is the representation.
pub const CSET_SET_IS_REP: Fact = Fact {
    statement: "cset.set1{'a} = cset.rep{'a}",
};

/// The set function gives the members.
pub const CSET_SET_MEMBER: Fact = Fact {
    statement: "!x0:'a cset. !x1:'a. cset.set1{'a} x0 x1 = cset.rep{'a} x0 x1",
};

/// Functor law set1_map of cset.
pub const CSET_SET_MAP: Fact = Fact {
    statement: "!x0:'a -> 'b. !x1:'a cset. !x2:'b. cset.set1{'b} (cset.map{'a,'b} x0 x1) x2 = (?x3:'a. cset.set1{'a} x1 x3 /\\ (x2 = x0 x3))",
};

/// Functor law set1_count of cset.
pub const CSET_SET_COUNT: Fact = Fact {
    statement: "!x0:'a cset. countable{'a} (cset.set1{'a} x0)",
};

/// Functor law map_cong of cset.
pub const CSET_MAP_CONG: Fact = Fact {
    statement: "!x0:'a -> 'b. !x1:'a -> 'b. !x2:'a cset. (!x3:'a. cset.set1{'a} x2 x3 ==> (x0 x3 = x1 x3)) ==> (cset.map{'a,'b} x0 x2 = cset.map{'a,'b} x1 x2)",
};

// On the relator of countable sets.

/// Where two functions are related on a set, each member of the one image has a related member of the other.
pub const CSET_MAPS_RELATE_EACH: Fact = Fact {
    statement: "!x0:'b -> 'c -> bool. !x1:'a -> 'b. !x2:'a -> 'c. !x3:'a cset. (!x4:'a. cset.rep{'a} x3 x4 ==> x0 (x1 x4) (x2 x4)) ==> (!x4:'b. cset.rep{'b} (cset.map{'a,'b} x1 x3) x4 ==> (?x5:'c. cset.rep{'c} (cset.map{'a,'c} x2 x3) x5 /\\ x0 x4 x5))",
};

/// Functions that are related on a set give related images.
pub const CSET_MAPS_RELATED: Fact = Fact {
    statement: "!x0:'b -> 'c -> bool. !x1:'a -> 'b. !x2:'a -> 'c. !x3:'a cset. (!x4:'a. cset.rep{'a} x3 x4 ==> x0 (x1 x4) (x2 x4)) ==> cset.rel{'b,'c} x0 (cset.map{'a,'b} x1 x3) (cset.map{'a,'c} x2 x3)",
};

/// The related pairs of two countable sets are a countable set.
pub const CSET_RELATED_PAIRS: Fact = Fact {
    statement: "!x0:'a -> 'b -> bool. !x1:'a cset. !x2:'b cset. ?x3:('a,'b) prod cset. cset.rep{('a,'b) prod} x3 = (\\x4:('a,'b) prod. (cset.rep{'a} x1 (fst{'a,'b} x4) /\\ cset.rep{'b} x2 (snd{'a,'b} x4)) /\\ x0 (fst{'a,'b} x4) (snd{'a,'b} x4))",
};

/// The first components of the related pairs of related sets are the members of the first set.
pub const CSET_REL_FIRSTS: Fact = Fact {
    statement: "!x0:'a -> 'b -> bool. !x1:'a cset. !x2:'b cset. cset.rel{'a,'b} x0 x1 x2 ==> (!x3:'a. (?x4:('a,'b) prod. ((cset.rep{'a} x1 (fst{'a,'b} x4) /\\ cset.rep{'b} x2 (snd{'a,'b} x4)) /\\ x0 (fst{'a,'b} x4) (snd{'a,'b} x4)) /\\ (x3 = fst{'a,'b} x4)) = cset.rep{'a} x1 x3)",
};

/// The second components of the related pairs of related sets are the members of the second set.
pub const CSET_REL_SECONDS: Fact = Fact {
    statement: "!x0:'a -> 'b -> bool. !x1:'a cset. !x2:'b cset. cset.rel{'a,'b} x0 x1 x2 ==> (!x3:'b. (?x4:('a,'b) prod. ((cset.rep{'a} x1 (fst{'a,'b} x4) /\\ cset.rep{'b} x2 (snd{'a,'b} x4)) /\\ x0 (fst{'a,'b} x4) (snd{'a,'b} x4)) /\\ (x3 = snd{'a,'b} x4)) = cset.rep{'b} x2 x3)",
};

// On the related pairs of countable sets.

/// Related sets are the images of the set of their related pairs.
pub const CSET_REL_OF_PAIRS: Fact = Fact {
    statement: "!x0:'a -> 'b -> bool. !x1:'a cset. !x2:'b cset. !x3:('a,'b) prod cset. (cset.rep{('a,'b) prod} x3 = (\\x4:('a,'b) prod. (cset.rep{'a} x1 (fst{'a,'b} x4) /\\ cset.rep{'b} x2 (snd{'a,'b} x4)) /\\ x0 (fst{'a,'b} x4) (snd{'a,'b} x4))) ==> (cset.rel{'a,'b} x0 x1 x2 ==> ((!x4:('a,'b) prod. cset.rep{('a,'b) prod} x3 x4 ==> x0 (fst{'a,'b} x4) (snd{'a,'b} x4)) /\\ ((cset.map{('a,'b) prod,'a} fst{'a,'b} x3 = x1) /\\ (cset.map{('a,'b) prod,'b} snd{'a,'b} x3 = x2))))",
};

/// Functor law rel_in of cset.
pub const CSET_REL_IN: Fact = Fact {
    statement: "!x0:'a -> 'b -> bool. !x1:'a cset. !x2:'b cset. cset.rel{'a,'b} x0 x1 x2 = (?x3:('a,'b) prod cset. (!x4:('a,'b) prod. cset.set1{('a,'b) prod} x3 x4 ==> x0 (fst{'a,'b} x4) (snd{'a,'b} x4)) /\\ ((cset.map{('a,'b) prod,'a} fst{'a,'b} x3 = x1) /\\ (cset.map{('a,'b) prod,'b} snd{'a,'b} x3 = x2)))",
};

// On compositions of relations of countable sets.

/// Where a composition relates the values of two functions on a set, there is a set between the images.
pub const CSET_REL_BETWEEN: Fact = Fact {
    statement: "!x0:'b -> 'c -> bool. !x1:'c -> 'd -> bool. !x2:'a -> 'b. !x3:'a -> 'd. !x4:'a cset. (!x5:'a. cset.rep{'a} x4 x5 ==> (?x6:'c. x0 (x2 x5) x6 /\\ x1 x6 (x3 x5))) ==> (?x5:'c cset. cset.rel{'b,'c} x0 (cset.map{'a,'b} x2 x4) x5 /\\ cset.rel{'c,'d} x1 x5 (cset.map{'a,'d} x3 x4))",
};

/// Where a composition relates two sets, there is a set between them.
pub const CSET_REL_SPLIT: Fact = Fact {
    statement: "!x0:'a -> 'b -> bool. !x1:'b -> 'c -> bool. !x2:'a cset. !x3:'c cset. cset.rel{'a,'c} (\\x4:'a. \\x5:'c. ?x6:'b. x0 x4 x6 /\\ x1 x6 x5) x2 x3 ==> (?x4:'b cset. cset.rel{'a,'b} x0 x2 x4 /\\ cset.rel{'b,'c} x1 x4 x3)",
};

/// Of three sets in a row, each member of the first has one of the last that the composition relates it to.
pub const CSET_REL_FORWARDS: Fact = Fact {
    statement: "!x0:'a -> 'b -> bool. !x1:'b -> 'c -> bool. !x2:'a cset. !x3:'b cset. !x4:'c cset. (cset.rel{'a,'b} x0 x2 x3 /\\ cset.rel{'b,'c} x1 x3 x4) ==> (!x5:'a. cset.rep{'a} x2 x5 ==> (?x6:'c. cset.rep{'c} x4 x6 /\\ (?x7:'b. x0 x5 x7 /\\ x1 x7 x6)))",
};

/// Of three sets in a row, each member of the last has one of the first that the composition relates to it.
pub const CSET_REL_BACKWARDS: Fact = Fact {
    statement: "!x0:'a -> 'b -> bool. !x1:'b -> 'c -> bool. !x2:'a cset. !x3:'b cset. !x4:'c cset. (cset.rel{'a,'b} x0 x2 x3 /\\ cset.rel{'b,'c} x1 x3 x4) ==> (!x5:'c. cset.rep{'c} x4 x5 ==> (?x6:'a. cset.rep{'a} x2 x6 /\\ (?x7:'b. x0 x6 x7 /\\ x1 x7 x5)))",
};

/// Functor law rel_comp of cset.
pub const CSET_REL_COMP: Fact = Fact {
    statement: "!x0:'a -> 'b -> bool. !x1:'b -> 'c -> bool. !x2:'a cset. !x3:'c cset. cset.rel{'a,'c} (\\x4:'a. \\x5:'c. ?x6:'b. x0 x4 x6 /\\ x1 x6 x5) x2 x3 = (?x4:'b cset. cset.rel{'a,'b} x0 x2 x4 /\\ cset.rel{'b,'c} x1 x4 x3)",
};

/// All of them.
pub const FACTS: &[Fact] = &[
    COUNTABLE_ENUMERATED,
    COUNTABLE_ENUMERATION,
    COUNTABLE_SUBSET,
    COUNTABLE_ON_TYPE,
    COUNTABLE_NUM,
    COUNTABLE_EMPTY,
    COUNTABLE_SINGLETON,
    COUNTABLE_UNIT,
    COUNTABLE_BOOL,
    COUNTABLE_ENUMERATED_TWICE,
    COUNTABLE_UNION,
    COUNTABLE_UNION_OF_TWO,
    COUNTABLE_IMAGE,
    COUNTABLE_RANGE,
    COUNTABLE_INJECTION,
    COUNTABLE_PRODUCT,
    COUNTABLE_PROD,
    COUNTABLE_SUM,
    CSET_ABS_REP,
    CSET_REP_ABS,
    CSET_COUNTABLE,
    CSET_EXTENSIONALITY,
    CSET_MEMBER,
    CSET_MAP_MEMBER,
    CSET_MAP_IS,
    CSET_MAP_EXISTS,
    CSET_MAP_ID,
    CSET_MAP_COMP,
    CSET_SET_IS_REP,
    CSET_SET_MEMBER,
    CSET_SET_MAP,
    CSET_SET_COUNT,
    CSET_MAP_CONG,
    CSET_MAPS_RELATE_EACH,
    CSET_MAPS_RELATED,
    CSET_RELATED_PAIRS,
    CSET_REL_FIRSTS,
    CSET_REL_SECONDS,
    CSET_REL_OF_PAIRS,
    CSET_REL_IN,
    CSET_REL_BETWEEN,
    CSET_REL_SPLIT,
    CSET_REL_FORWARDS,
    CSET_REL_BACKWARDS,
    CSET_REL_COMP,
];
