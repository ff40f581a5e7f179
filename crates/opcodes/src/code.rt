//! The code of a method as instructions.

ghost use Rattle.std.specs.Prelude.{◌≡◌};

use model::bytecode::Located;
use std::marker::Model;

/// The instructions of a method in order, each at its pc. A contract sees them as a list.
#[derive(Drop)]
pub struct Code {
    items: Vec<Located>,
}

impl Model for Code {
    ghost use Rattle.std.specs.Prelude.{List};
    ghost use Rattle.model.specs.declared.bytecode.Located.{Located};

    ghost Value = { List Located };

    ghost view = { λ a. a.items.items };
}

impl Code {
    /// The code of these instructions, as they stand.
    pub(crate) fn new(items: Vec<Located>) -> Code
        ensures { result ≡ items.items }
    {
        Code { items }
    }

    /// The instructions, in order.
    pub fn as_slice(&self) -> &[Located]
        ensures { result.now ≡ self.now }
    {
        self.items.as_slice()
    }

    /// The instructions, in order.
    pub fn into_items(self) -> Vec<Located>
        ensures { result.items ≡ self }
    {
        let Code { items } = self;
        items
    }
}
