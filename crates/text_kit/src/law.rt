ghost use Rattle.text_kit.specs.Laws.{WrittenIsRead};

/// What is written after a header is a file of the items that were written. The call does nothing, and takes no time.
pub fn written_is_read()
    ensures { WrittenIsRead }
{}
