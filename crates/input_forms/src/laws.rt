//! What the definitions come to: each law is the contract of a function that does nothing.
ghost use Rattle.input_forms.specs.Laws.{WhatIsNeededIsFilled};

/// Where a value has to be given, that of a template is not null.
pub fn what_is_needed_is_filled()
    ensures { WhatIsNeededIsFilled }
{}
