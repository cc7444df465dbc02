//! The uses of names.

ghost use Rattle.std.specs.Prelude.{◌≡◌, ◌<◌, ◌^◌, not, is_some, length};
ghost use Rattle.std.specs.List.{list_any};
ghost use Rattle.cat_conditions.specs.Names as spec;
ghost use Rattle.cat_conditions.specs.Offences.{At, Finds};
ghost use Rattle.cat_conditions.specs.Plain.{action_of, term_of};
ghost use Rattle.cat_types.specs.Shown.{shown, all_shown};
ghost use Rattle.cat_types.specs.Sorts.{sorts, AreOf, is_unknown};

use crate::names::Names;
use crate::pieces::Piece;
use cat_conditions::plain_law;
use cn_base::Text;
use cn_base::tree::{Expr, Item, Stmt};

impl Names<'_> {
    fn lacks(&self, name: &Text) -> bool
        ensures { result ≡ is_unknown self.now name.now }
    {
        self.sort(name).is_none()
    }

    fn lacks_any(&self, list: &[Text]) -> bool
        ensures { result ≡ list_any (is_unknown self.now) list.now }
    {
        for name in list {
            if self.lacks(name) {
                return true;
            }
        }
        false
    }

    fn item_lacks(&self, item: &Item) -> bool
        ensures { result ≡ list_any (is_unknown self.now) (spec.item_names item.now) }
    {
        match item {
            Item::Degrade(list) => self.lacks_any(list.as_slice()),
            Item::Start(name) => self.lacks(name),
            _ => false,
        }
    }

    fn statement_lacks(&self, statement: &Stmt) -> bool
        ensures { result ≡ list_any (is_unknown self.now) (spec.action_names (action_of statement.now)) }
    {
        plain_law();
        match statement {
            Stmt::Set(name, _) | Stmt::SetAt(name, ..) | Stmt::Post(name) => self.lacks(name),
            Stmt::Out(..) | Stmt::If(..) | Stmt::While(..) | Stmt::Repeat(..) => false,
        }
    }

    fn expr_lacks(&self, expr: &Expr) -> bool
        ensures { result ≡ list_any (is_unknown self.now) (spec.term_names (term_of expr.now)) }
    {
        plain_law();
        match expr {
            Expr::Name(name) | Expr::Element(name, _) => self.lacks(name),
            Expr::Number(_) | Expr::Truth(_) | Expr::Payload => false,
            Expr::Signed(..) | Expr::Chain(..) | Expr::Compare(..) => false,
        }
    }

    /// Whether a name stands in it that is declared nowhere.
    pub fn piece_lacks(&self, piece: &Piece<'_>) -> bool
        ensures { result ≡ list_any (is_unknown self.now) (spec.used_names (shown piece.now)) }
    {
        match piece {
            Piece::Item(item) => self.item_lacks(item),
            Piece::Statement(_, _, statement) => self.statement_lacks(statement),
            Piece::Expression(_, expr) => self.expr_lacks(expr),
        }
    }
}
