ghost use Rattle.area_layout.specs.Laws.{BuffersAreInOrder, WordsAreApart, PlacesAreJudged};

/// Buffers lie one after another, each as long as its size, and begin and end with a word. It does nothing: its contract
/// is the law.
pub fn buffers_are_in_order()
    ensures { BuffersAreInOrder }
{}

/// The words of two buffers never overlap, and all lie among the words of the area, one buffer after another. It does
/// nothing: its contract is the law.
pub fn words_are_apart()
    ensures { WordsAreApart }
{}

/// The entry of a place is judged the buffer of that place. It does nothing: its contract is the law.
pub fn places_are_judged()
    ensures { PlacesAreJudged }
{}
