// The figures of a short series: how many returns it has, then the returns.
use crate::row::{Row, float, same_figure};
use metrics::Figures;

fn rate_agrees(leaf: u64, figures: Figures, answer: u64) -> bool {
    match leaf {
        71 => same_figure(figures.total_return, answer),
        72 => same_figure(figures.max_drawdown, answer),
        73 => same_figure(figures.win_rate, answer),
        74 => same_figure(figures.profit_factor, answer),
        75 => same_figure(figures.payoff_ratio, answer),
        76 => same_figure(figures.kelly, answer),
        _ => false,
    }
}

pub(crate) fn agrees(r: Row) -> bool {
    let leaf = r.leaf;
    let count = r.a;
    if 6 < count {
        return false;
    }
    let n = count as usize;
    let series = [
        float(r.b),
        float(r.c),
        float(r.d),
        float(r.e),
        float(r.f),
        float(r.g),
    ];
    let metrics = metrics::compute_metrics(&series[0..n]);
    let given = metrics.answer;
    let figures = metrics.figures;
    match leaf {
        70 => answer::number(given) == r.answer,
        77 => figures.num_periods == r.answer,
        78 => figures.winning_periods == r.answer,
        79 => figures.losing_periods == r.answer,
        _ => rate_agrees(leaf, figures, r.answer),
    }
}
