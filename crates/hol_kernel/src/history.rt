ghost use Rattle.std.specs.Prelude.{◌≡◌, ◌<◌, [], ◌∷◌, ◌++◌, length, IfOk};
ghost use Rattle.hol_terms.specs.DefShape.{definition_of};
ghost use Rattle.hol_kernel.specs.Shape.{defs_of_tree, defs_of_forest, IsTree, IsForest};

use hol_terms::defs::Def;
use std::alloc::{AllocError, Global};
use std::marker::Model;
use std::rc::Rc;

/// Definitions in the order of making, shared by all that hold them. Its trees double in size from the newest to the oldest,
/// so that its depth is logarithmic, and one more definition shares all but the newest trees.
#[cycle(history)]
#[derive(Drop)]
pub struct History {
    node: Rc<Forest>,
}

#[cycle(history)]
#[derive(Drop)]
enum Forest {
    Start,
    More {
        older: History,
        newest: Tree,
        rank: u8,
    },
}

/// Two to the power of its rank definitions.
#[cycle(tree)]
#[derive(Drop)]
struct Tree {
    node: Rc<TreeNode>,
}

#[cycle(tree)]
#[derive(Drop)]
enum TreeNode {
    Leaf(Def),
    Fork(Tree, Tree),
}

impl Model for Tree {
    ghost use Rattle.std.specs.Prelude.{List, length};
    ghost use Rattle.std.specs.Coded.{coded_list};
    ghost use Rattle.hol_terms.specs.Definition.{Definition, def_code};

    ghost Value = { List Definition };

    ghost coded = { coded_list def_code };

    ghost use Rattle.hol_kernel.specs.Shape.{defs_of_tree, IsTree};

    ghost view = { λ a. defs_of_tree a.node.value };

    ghost invariant = { λ a. IsTree a.node.value };

    ghost size = { length };

    ghost use Rattle.std.proofs.Common.{arith};
    ghost use Rattle.hol_kernel.specs.TreeFalls.{tree_falls};

    ghost size_decreases = { λ a h. omega (arith, tree_falls a.node.value h) };
}

impl Model for History {
    ghost use Rattle.std.specs.Prelude.{List, length, ◌+◌};
    ghost use Rattle.std.specs.Coded.{coded_list};
    ghost use Rattle.hol_terms.specs.Definition.{Definition, def_code};

    ghost Value = { List Definition };

    ghost coded = { coded_list def_code };

    ghost use Rattle.hol_kernel.specs.Shape.{defs_of_forest, IsForest};

    ghost view = { λ a. defs_of_forest a.node.value };

    ghost invariant = { λ a. IsForest a.node.value };

    ghost size = { length };

    ghost use Rattle.std.proofs.Common.{arith};
    ghost use Rattle.hol_kernel.specs.ForestFalls.{forest_falls};

    ghost size_decreases = { λ a h. omega (arith, forest_falls a.node.value h) };
}

impl Tree {
    fn close(alloc: Global, node: TreeNode) -> Result<Tree, AllocError>
        requires { IsTree node }
        ensures { IfOk result (λ t. t ≡ defs_of_tree node) }
    {
        match Rc::new(alloc, node) {
            Ok(node) => Ok(Tree { node }),
            Err(_) => Err(AllocError),
        }
    }

    fn copy(&self) -> Result<Tree, AllocError>
        ensures { IfOk result (λ t. t ≡ self.now) }
    {
        let node = self.node.clone()?;
        Ok(Tree { node })
    }
}

impl History {
    /// No definition.
    pub fn start(alloc: Global) -> Result<History, AllocError>
        ensures { IfOk result (λ h. h ≡ []) }
    {
        History::close(alloc, Forest::Start)
    }

    /// The same definitions.
    pub fn copy(&self) -> Result<History, AllocError>
        ensures { IfOk result (λ h. h ≡ self.now) }
    {
        let node = self.node.clone()?;
        Ok(History { node })
    }

    /// One definition more.
    pub fn with(&self, alloc: Global, d: &Def) -> Result<History, AllocError>
        ensures { IfOk result (λ h. h ≡ self.now ++ definition_of d.now ∷ []) }
    {
        let d = d.copy()?;
        let leaf = Tree::close(alloc, TreeNode::Leaf(d))?;
        self.with_tree(alloc, leaf, 0)
    }

    fn close(alloc: Global, node: Forest) -> Result<History, AllocError>
        requires { IsForest node }
        ensures { IfOk result (λ h. h ≡ defs_of_forest node) }
    {
        match Rc::new(alloc, node) {
            Ok(node) => Ok(History { node }),
            Err(_) => Err(AllocError),
        }
    }

    /// A tree more, which is joined with the newest one where that has its rank.
    fn with_tree(&self, alloc: Global, tree: Tree, rank: u8) -> Result<History, AllocError>
        requires { 0 < length tree }
        ensures { IfOk result (λ h. h ≡ self.now ++ tree) }
    {
        match &*self.node {
            Forest::More {
                older,
                newest,
                rank: same,
            } if *same == rank => {
                let newest = newest.copy()?;
                let joined = Tree::close(alloc, TreeNode::Fork(newest, tree))?;
                older.with_tree(alloc, joined, rank.saturating_add(1))
            }
            _ => {
                let older = self.copy()?;
                History::close(
                    alloc,
                    Forest::More {
                        older,
                        newest: tree,
                        rank,
                    },
                )
            }
        }
    }
}
