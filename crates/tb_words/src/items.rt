//! What stands behind a command's name, item by item.
ghost use Rattle.std.specs.Prelude.{◌≡◌, ◌∷◌, map, string_bytes, Some};
ghost use Rattle.tb_words.specs.Items as spelled;
ghost use Rattle.tb_words.specs.Items.{items_from};
ghost use Rattle.tb_words.specs.Parts.{item_of, items_left};

/// An item behind a command's name.
#[derive(Clone, Copy, Debug)]
pub(crate) enum Item<'a> {
    /// A positional word.
    Place(&'a str),
    /// An option with its value.
    Named { name: &'a str, value: &'a str },
    /// The switch `--csv`.
    Csv,
    /// An option without its value.
    Bare,
}

/// The items of words, from the left.
#[derive(Clone, Copy, Debug)]
pub(crate) struct Items<'a> {
    pub(crate) words: &'a [String],
}

impl<'a> Iterator for Items<'a> {
    ghost use Rattle.std.specs.Iterator.{YieldsFirstBy, item_count};
    ghost use Rattle.tb_words.specs.Parts.{item_of, items_left};

    type Item = Item<'a>;

    ghost next_gives = { YieldsFirstBy item_of items_left };

    ghost remaining = { item_count items_left };

    #[tactic(auto, unfolding(crate::specs::Items::items_from))]
    fn next(&mut self) -> Option<Item<'a>> {
        let (word, words) = self.words.split_first()?;
        self.words = words;
        let word = word.as_str();
        if !is_dashed(word) {
            return Some(Item::Place(word));
        }
        if word == "--csv" {
            return Some(Item::Csv);
        }
        match word.split_once('=') {
            Some((name, value)) => Some(Item::Named { name, value }),
            None => Some(self.with_value(word)),
        }
    }
}

impl<'a> Items<'a> {
    #[tactic(auto, unfolding(crate::specs::Items::items_from))]
    // The option of this name, whose value is the next word.
    fn with_value(&mut self, name: &'a str) -> Item<'a>
        ensures { items_from (Some name.entry.now) (map string_bytes self.old.words.now)
            ≡ item_of result ∷ items_left self.new }
    {
        let Some((value, words)) = self.words.split_first() else {
            return Item::Bare;
        };
        self.words = words;
        let value = value.as_str();
        if is_dashed(value) {
            Item::Bare
        } else {
            Item::Named { name, value }
        }
    }
}

fn is_dashed(word: &str) -> bool
    ensures { result ≡ spelled.is_dashed word.now }
{
    let bytes = word.as_bytes();
    !bytes.is_empty() && bytes[0] == b'-'
}
