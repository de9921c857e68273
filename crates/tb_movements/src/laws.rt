//! Laws of movements. The functions do nothing: their contracts name what is proved.
ghost use Rattle.std.specs.Prelude.{◌≡◌, ◌∷◌, ◌++◌, [], List, Option, option_to_list};
ghost use Rattle.tb_holdings.specs.Book.{Book};
ghost use Rattle.tb_movements.specs.Movements.{Movement};
ghost use Rattle.tb_movements.specs.Legal.{IsLegal, Conservation};
ghost use Rattle.tb_movements.specs.Told.{IsTold, HasFigures};
ghost use Rattle.tb_movements.specs.Translated.{movements_of, EachPasses};

/// Of each legal history: what all participants hold of a security is what was issued of it, or nothing once it was
/// redeemed, and then they were paid what was issued; nobody has pledged more than it holds.
pub fn par_is_conserved()
    ensures { Conservation }
{}

/// A book that tells a history tells what is pledged, what is free and how many marks are open, too.
pub fn figures_are_told()
    ensures { (history : List Movement) (book : Book) → IsTold history book → HasFigures history book }
{}

/// The movements of a history of entries grow by what its next entry means, and are legal where what each entry means
/// passes on those before it.
pub fn entries_mean_legal_movements<E>()
    ensures grows { (meaning : List E → E → Option Movement) (entries : List E) (entry : E)
        → movements_of meaning (entries ++ entry ∷ [])
        ≡ movements_of meaning entries ++ option_to_list (meaning entries entry) }
    ensures legal { (meaning : List E → E → Option Movement) (entries : List E)
        → EachPasses meaning entries → IsLegal (movements_of meaning entries) }
{}
