// Which checker judges which kind of value, and what it answers.
#![tactic(auto)]

ghost use Rattle.std.specs.Prelude.{◌≡◌};
ghost use Rattle.answers.specs.Given.{given_yes, given_any};
ghost use Rattle.kinds.specs.Given.{simple_given, kind_given};

use answers::Refusal;
use money::Range;
use profile::{Kind, Simple};
use words::Field;

// What a value is answered whose checker says yes or refuses.
#[tactic(auto, unfolding(crate::specs::Given::simple_given))]
fn simple(s: Simple, v: &[u8]) -> Result<(), Refusal>
    ensures { given_yes result ≡ simple_given s v.now }
{
    match s {
        Simple::Reference => words::reference(v),
        Simple::EndToEnd => words::end_to_end(v),
        Simple::Text70 => words::text(Field::Nm, v),
        Simple::Text140 => words::text(Field::Ustrd, v),
        Simple::Date => calendar::date(v),
        Simple::Time => calendar::time(v),
        Simple::Bic => accounts::bic(v),
        Simple::Bicfi => accounts::bicfi(v),
        Simple::Iban => accounts::iban(v),
        Simple::Identifier => accounts::creditor_id(v),
    }
}

// What a value of the kind is answered: a count's number, an amount's cents, a code's place in its list; of any other nothing is told.
pub fn judge_value(k: Kind, v: &[u8]) -> Result<Option<u64>, Refusal>
    ensures { given_any result ≡ kind_given k v.now }
{
    match k {
        Kind::Plain(s) => simple(s, v).map(|()| None),
        Kind::Count => money::count(v).map(Some),
        Kind::Total => money::amount(Range::Total, v).map(Some),
        Kind::Amount => money::amount(Range::Item, v).map(Some),
        Kind::Code(e) => codes::code(e, v).map(Some),
    }
}
