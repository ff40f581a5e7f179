//! Whether a class file can count what a listing has.
ghost use Rattle.std.specs.Prelude.{◌≡◌};
ghost use Rattle.std.specs.List.{list_all};
ghost use Rattle.model.specs.Texts.Assembling.{is_countable};
ghost use Rattle.assembler.specs.Checks.{has_few_rows, has_short_lists};

use model::listings::{Listing, Method};

/// Whether a class file can count each list of a listing.
pub fn has_short_lists(listing: &Listing) -> bool
    ensures { result ≡ has_short_lists listing.now }
{
    let interfaces = is_countable(listing.interfaces.len());
    let fields = is_countable(listing.fields.len());
    let methods = is_countable(listing.methods.len());
    let rows = have_few_rows(listing.methods.as_slice());
    interfaces && fields && methods && rows
}

fn is_countable(count: usize) -> bool
    ensures { result ≡ is_countable count }
{
    count <= 65535
}

fn have_few_rows(methods: &[Method]) -> bool
    ensures { result ≡ list_all has_few_rows methods.now }
{
    methods.iter().all(|method| has_few_rows(method))
}

fn has_few_rows(method: &Method) -> bool
    ensures { result ≡ has_few_rows method.now }
{
    match &method.code {
        None => true,
        Some(code) => code.rows.len() <= 65535,
    }
}
