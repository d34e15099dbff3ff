//! Paragraphs of prose with markup, in several languages.

use crate::random::Random;
use std::alloc::{AllocError, Global};

/// What a paragraph is written in.
#[derive(Clone, Copy)]
pub enum Language {
    English,
    German,
    French,
    Russian,
    Greek,
    Chinese,
    Japanese,
    Korean,
    /// English, with emoji.
    Chat,
}

const ENGLISH: &str =
    "the of and to a in that is was for it with as his on be at by had which message attached invoice please meeting tomorrow \
    delivery account number regards system could database through between another information question without important";

const GERMAN: &str =
    "der die und in den von zu das mit sich für nicht über können müssen Straße Größe schöne Grüße Anhang Rechnung \
    bitte möchte während zurück natürlich gemäß Verfügung Prüfung Änderung Übersicht Lieferung Bestätigung \
    außerdem jährlich geschäftlich";

const FRENCH: &str =
    "de la le et les des en un du une que est pour qui dans à été même après très français où déjà réponse \
    société numéro bientôt forêt leçon garçon événement créé";

const RUSSIAN: &str = "и в не на я что он с как это по но они мы из за так весь она который \
    письмо счёт пожалуйста завтра система вопрос человек время \
    работа сообщение приложение договор информация предприятие \
    уважением необходимо";

const GREEK: &str = "και το να του η της με που την από για είναι τον στο ο αυτό μήνυμα \
    παρακαλώ αύριο σύστημα ερώτηση άνθρωπος χρόνος εργασία \
    τιμολόγιο πληροφορία λογαριασμός ευχαριστώ";

const CHINESE: &str = "的 一 是 不 了 人 我 在 有 他 这 中 大 来 上 国 个 到 说 们 时间 公司 文件 请问 明天 \
    会议 系统 问题 工作 信息 数据 转换 字符 编码 用户 服务 谢谢 重要 发展 经济";

const JAPANESE: &str = "の に は を た が で て と し れ さ ある いる も する から な こと として 文字 変換 \
    会社 明日 会議 お願いします ありがとう システム データ メール サービス 情報 質問 \
    仕事 時間 東京 日本語 コンピュータ ください について";

const KOREAN: &str = "이 그 는 을 에 의 가 하다 있다 것 수 나 사람 우리 회의 내일 문자 변환 회사 감사합니다 \
    시스템 정보 질문 시간 데이터 서비스 부탁드립니다 안녕하세요 한국어 메일 중요한 \
    그리고";

const CHAT: &str =
    "ok lol so the and you see later thanks 😀 😂 👍 🎉 ❤️ 🙏 🔥 party tonight where when 🚀 🍕 😎 \
    great photo love 👩‍💻 yes no maybe 🐱 home";

impl Language {
    /// Its words, the common ones first.
    fn words(self) -> &'static str {
        match self {
            Language::English => ENGLISH,
            Language::German => GERMAN,
            Language::French => FRENCH,
            Language::Russian => RUSSIAN,
            Language::Greek => GREEK,
            Language::Chinese => CHINESE,
            Language::Japanese => JAPANESE,
            Language::Korean => KOREAN,
            Language::Chat => CHAT,
        }
    }

    /// What stands between two words, and what ends a sentence.
    fn marks(self) -> (&'static str, &'static str) {
        match self {
            Language::Chinese | Language::Japanese => ("", "。"),
            Language::Chat => (" ", "! "),
            _ => (" ", ". "),
        }
    }
}

/// Appends so many words.
pub fn push_words(
    alloc: Global,
    out: &mut String,
    random: &mut Random,
    language: Language,
    count: usize,
) -> Result<(), AllocError> {
    let (space, stop) = language.marks();
    let words: Vec<&str> = language.words().split(' ').collect(alloc)?;
    for _word in 0..count {
        out.push_str(random.word(&words))?;
        let is_end = random.is_one_in(12);
        out.push_str(if is_end { stop } else { space })?;
    }
    Ok(())
}

/// A paragraph of 20 to 150 words between its tags.
pub fn paragraph(
    alloc: Global,
    random: &mut Random,
    language: Language,
) -> Result<String, AllocError> {
    let mut out = String::new(alloc);
    let number = random.below(1000);
    out.push_str(&format!(in alloc; "<p class=\"body\" id=\"n{number}\">")?)?;
    let count = random.between(20, 150);
    push_words(alloc, &mut out, random, language, count)?;
    out.push_str("</p>\r\n")?;
    Ok(out)
}
