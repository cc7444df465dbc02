//! What the kinds of expressions and statements are as plain data.

ghost use Rattle.cat_conditions.specs.PlainKinds.{ExpressionKinds, StatementKinds};

/// Each kind of expression and each kind of statement is the plain data of that kind, with what is inside as plain data too.
pub fn plain_law()
    ensures terms { ExpressionKinds }
    ensures actions { StatementKinds }
{}
