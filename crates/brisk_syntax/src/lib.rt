//! Programs of processes: their trees, and what is done to a tree.
#![tactic(auto)]

mod classes;
mod copies;
mod copy;
mod count;
mod equal;
mod evaluate;
mod lists;
mod program;
mod segments;
mod stores;
mod substitute;
mod tree;

pub use classes::{is_star, is_straight};
pub use copies::copy_program;
pub use copy::{code_from, copy_code, copy_expr, copy_exprs, copy_names};
pub use count::statements;
pub use equal::{same_code, same_expr};
pub use evaluate::{eval, eval_all, is_true, size_of_set};
pub use lists::{Exprs, Names};
pub use program::{
    Channel, Channels, Const, Decl, Decls, EnumDecl, Enums, Kinds, Program, Role, Roles,
};
pub use segments::Code;
pub use stores::store_all;
pub use substitute::subst;
pub use tree::{AnyRecv, Block, Expr, Loop, Stmt, Turns, Who};
