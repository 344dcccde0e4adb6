// That what is said of fixes is one. The function does nothing and promises the law; nobody calls it.

ghost use Rattle.page_influence.specs.Laws.{FixesHaveOneInfluence};

/// Of any fixes only one thing may be said: the index and the area are determined, and so is that there are none.
pub fn fixes_have_one_influence()
    ensures { FixesHaveOneInfluence }
{}
