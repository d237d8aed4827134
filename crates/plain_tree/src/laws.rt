//! Laws of plain trees, each the contract of a function that does nothing.

ghost use Rattle.plain_tree.specs.Promises.{ModuleOfPlain, PlainOfTree, TreeOfPlain};

/// A tree is that of its plain form, so nothing is lost there. So is a module.
pub fn law_tree_of_plain()
    ensures operations { TreeOfPlain }
    ensures modules { ModuleOfPlain }
{}

/// A plain operation is the plain form of its tree, so passes over plain trees and over trees follow each other alike.
pub fn law_plain_of_tree()
    ensures { PlainOfTree }
{}
