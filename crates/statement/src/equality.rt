// Two statements are equal exactly where each of their fields is.
ghost use Rattle.std.specs.Prelude.{◌≡◌, ◌↔◌, IsTrue};
ghost use Rattle.statement.specs.declared.types.Statement.{Statement};
ghost use Rattle.statement.specs.declared.types.SignedStatement.{SignedStatement};

use super::types::{SignedStatement, Statement};

/// What `==` computes decides, for any two statements and any two signed statements, whether they are the same.
pub fn equal_where_every_field_is()
    ensures statement { (a b : Statement) → IsTrue (⟦<Statement as PartialEq>⟧.eq a b) ↔ (a ≡ b) }
    ensures signed { (a b : SignedStatement) → IsTrue (⟦<SignedStatement as PartialEq>⟧.eq a b) ↔ (a ≡ b) }
{}
