// The elements of the charts: each is one of ten, and none comes twice.
ghost use Rattle.std.specs.Prelude.{◌≡◌};
ghost use Rattle.chart_section.specs.ChartSection.{member, is_new_element};
ghost use Rattle.chart_section.specs.Columns.{elements_in};

use crate::ChartSignal;

pub fn is_new_element(used: &[ChartSignal], element: u32) -> bool
    ensures { result ≡ is_new_element (elements_in used.now) element }
{
    record::is_element(element) && !is_member(element, used)
}

fn is_member(element: u32, used: &[ChartSignal]) -> bool
    ensures { result ≡ member element (elements_in used.now) }
{
    used.iter().any(|chart| chart.element == element)
}
