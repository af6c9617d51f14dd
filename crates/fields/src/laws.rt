// The laws and the worked examples, as contracts.
ghost use Rattle.fields.specs.Laws.{FieldsLaws, Worked};

/// Each offset in range and each valid stamp has one text, which is read as it and as nothing else.
pub fn fields_stand()
    ensures { FieldsLaws }
{}

/// The worked examples hold.
#[tactic(auto, unfolding(crate::specs::Offsets::printed, crate::specs::Offsets::parsed, crate::specs::Stamps::stamp_text, crate::specs::Stamps::stamp_read))]
pub fn worked()
    ensures { Worked }
{}
