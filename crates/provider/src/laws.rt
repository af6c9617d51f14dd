// What every fetch's answer says of the record.
ghost use Rattle.provider.specs.Laws.{AnswersComeFromPages};

/// Whatever the provider: the page that a fetch hands out is the cut of the record's page at the edition that it names, and an unchanged answer names an edition whose page has the known tag.
pub fn answers_come_from_pages()
    ensures { AnswersComeFromPages }
{}
