// Printed lines of repeated measures.
use crate::cases::Case;
use crate::lines::Out;
use repeated::RmAnovaResult;

pub fn repeated_measures(out: &mut Out, case: &Case) {
    let r = repeated::repeated_measures_anova(case.readings, case.sizes, case.option == 1);
    if let Err(refusal) = r.refusal.check() {
        return out.refused(refusal);
    }
    table_lines(out, r);
    out.firsts(b"condition_means@\n", r.n_conditions, &r.condition_means);
    out.firsts(b"subject_means@\n", r.n_subjects, &r.subject_means);
    if r.has_sphericity {
        sphericity_lines(out, r);
    }
}

fn table_lines(out: &mut Out, r: RmAnovaResult) {
    let w = r.within_subjects;
    let s = r.subjects;
    out.form(
        b"repeatedAB\nconditions0123\nsubjects456\n",
        &[r.n_subjects as u64, r.n_conditions as u64],
        &[w.ss, w.df, w.ms, w.f, s.ss, s.df, s.ms],
    );
    let e = r.error;
    let t = r.total;
    out.form(
        b"error012\ntotal345\ngrand6\n",
        &[],
        &[e.ss, e.df, e.ms, t.ss, t.df, t.ms, r.grand_mean],
    );
}

fn sphericity_lines(out: &mut Out, r: RmAnovaResult) {
    let s = r.sphericity;
    let gg = r.greenhouse_geisser;
    let hf = r.huynh_feldt;
    out.form(
        b"sphericity01\ngg2345\nhf6789\n",
        &[],
        &[
            s.w,
            s.df,
            gg.epsilon,
            gg.df_num_corrected,
            gg.df_den_corrected,
            gg.f_statistic,
            hf.epsilon,
            hf.df_num_corrected,
            hf.df_den_corrected,
            hf.f_statistic,
        ],
    );
}
