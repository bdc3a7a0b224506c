ghost use Rattle.std.specs.Prelude.{◌≡◌};

use crate::book::Book;
use crate::receipt::Receipt;
use crate::told::Told;
use std::marker::Model;

/// A receipt with its entry's token, as one thread leaves it for another. To a contract it is the receipt.
#[derive(Drop)]
pub struct Answered<B: Book> {
    receipt: Receipt,
    told: Told<B>,
}

impl<B: Book> Model for Answered<B> {
    ghost use Rattle.std.specs.Prelude.{◌≡◌};
    ghost use Rattle.xa_tokens.specs.declared.receipt.Receipt.{Receipt};

    ghost Value = { Receipt };

    ghost view = { λ a. a.receipt };

    ghost invariant = { λ a. a.told ≡ a.receipt };
}

impl<B: Book> Answered<B> {
    pub fn new(receipt: Receipt, told: Told<B>) -> Answered<B>
        requires { told ≡ receipt }
        ensures { result ≡ receipt }
    {
        Answered { receipt, told }
    }

    pub fn receipt(&self) -> &Receipt
        ensures { result.now ≡ self.now }
    {
        &self.receipt
    }

    pub fn into_parts(self) -> (Receipt, Told<B>)
        ensures { (result.0 ≡ self) × (result.1 ≡ self) }
    {
        let Answered { receipt, told } = self;
        (receipt, told)
    }
}
