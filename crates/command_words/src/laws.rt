ghost use Rattle.command_words.specs.Laws.{AreasAreRead, OneAreaIsRead, PoolsMakeLayouts};

/// A text whose parts all tell areas is read exactly where these areas make a layout. It does nothing: its contract is the
/// law.
pub fn areas_are_read()
    ensures { AreasAreRead }
{}

/// A number of buffers and a size that are read are one area exactly where it makes a layout. It does nothing: its contract
/// is the law.
pub fn one_area_is_read()
    ensures { OneAreaIsRead }
{}

/// The areas that are read always make a layout. It does nothing: its contract is the law.
pub fn pools_make_layouts()
    ensures { PoolsMakeLayouts }
{}
