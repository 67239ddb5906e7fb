ghost use Rattle.std.specs.Prelude.{◌≡◌, ◌++◌, ◌∷◌, [], OnOk};
ghost use Rattle.scenario_words.specs.Joined.{behind};
ghost use Rattle.scenario_words.specs.ValueWords.{wish_words};

use crate::numbers::four_octets;
use bass_operations::{Wish, Wishes};
use bcast_base::{Memory, Octets};
use scenario_words::{Word, put_words};

/// Puts the two words of a pair behind a line.
fn put_wish(line: &mut Octets, wish: &Wish) -> Result<(), Memory>
    ensures { OnOk result (line.new ≡ line.old ++ behind (wish_words (wish.now ∷ []))) }
{
    let bits = four_octets(wish.bis_sync);
    let metadata = wish.metadata.as_slice();
    put_words(line, b"", &[Word::Digits(&bits), Word::Octets(metadata)])
}

/// Puts the words of all pairs behind a line, in their order.
pub fn put_wishes(line: &mut Octets, wishes: &Wishes) -> Result<(), Memory>
    ensures { OnOk result (line.new ≡ line.old ++ behind (wish_words wishes.now)) }
{
    'wishes: for i in 0..wishes.count() {
        put_wish(line, wishes.item(i))?;
    }
    Ok(())
}
