//! Laws of findings.

ghost use Rattle.std.specs.Prelude.{◌≡◌, List};
ghost use Rattle.base_words.specs.Fields.{Block};
ghost use Rattle.vol_parts.specs.declared.finding.Finding.{Finding};
ghost use Rattle.vol_parts.specs.Findings.{AreFindings};
ghost use Rattle.vol_analyze.specs.Having.{HaveFindings};

/// Any blocks have a list of findings: the first fatal one alone, where one holds, else all the others.
pub fn there_are_findings()
    ensures { (bs : List Block) → HaveFindings bs }
{}

/// No two different lists are the findings of the same blocks.
pub fn findings_are_one_list()
    ensures { (bs : List Block) (fs gs : List Finding) → AreFindings bs fs → AreFindings bs gs → fs ≡ gs }
{}
